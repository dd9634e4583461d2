// Reads the reals of the Tib formats from four or eight octets, and reads a real in fractions.
#![tactic(auto)]

pub mod types;

ghost use Rattle.std.specs.Prelude.{◌≡◌, ◌^◌, ◌<◌, ◌≤◌, from_bits};
ghost use Rattle.std.specs.Float.{binary64};
ghost use Rattle.tib_real.specs.Widened.{widened};
ghost use Rattle.tib_real.specs.FromOctets.{with_bits, real_of};
ghost use Rattle.tib_real.specs.WholeNumber.{hint_within};
ghost use Rattle.tib_real.specs.InNumbers.{whole_number};
ghost use Rattle.tib_real.specs.InFractions.{in_fractions, fractions_of};

use reading::Refusal;
use types::Real;

// Returns the value of these bits. The language makes no not-a-number from bits, so a division without a result makes it.
fn value(bits: u64) -> f64
    ensures { result ≡ from_bits binary64 bits }
{
    if 0x7ff0_0000_0000_0000 < bits & 0x7fff_ffff_ffff_ffff {
        0.0 / 0.0
    } else {
        f64::from_bits(bits)
    }
}

// Returns the real with these 64 bits and this hint.
pub fn with_bits(bits: u64, hint: u64, hinted: bool) -> Real
    ensures { result ≡ with_bits bits hint hinted }
{
    Real {
        value: value(bits),
        bits,
        hint,
        hinted,
    }
}

// Returns the bits of the same real in eight octets. The machine's conversion may change the fraction of a not-a-number, so this function
// moves the bits of infinities and not-a-numbers itself.
fn widen(b: u64) -> u64
    requires { b < 2 ^ 32 }
    ensures { result ≡ widened b }
{
    if (b >> 23) & 0xff == 0xff {
        return ((b >> 31) << 63) + (0x7ff << 52) + ((b & 0x7f_ffff) << 29);
    }
    f64::to_bits(f32::from_bits(b as u32) as f64)
}

// Returns the real that four or eight octets hold. Octets of another length give a real of zeros, so that no caller has to handle a refusal.
pub fn real(s: &[u8], hint: u64, hinted: bool) -> Real
    ensures { result ≡ real_of s.now hint hinted }
{
    let n = s.len();
    if n == 8 {
        return with_bits(octets_read::uint(s).value, hint, hinted);
    }
    if n == 4 {
        return with_bits(widen(octets_read::uint(s).value), hint, hinted);
    }
    with_bits(0, 0, false)
}

// Returns whether a real has a hint, and one from `least` to `most`.
pub fn hint_within(r: Real, least: u64, most: u64) -> bool
    ensures { result ≡ hint_within least most r }
{
    r.hinted & (least <= r.hint) & (r.hint <= most)
}

// Internal: callers have already rejected other hints. With an exponent of 1076 - h or more the product's size is 2^53 or more, or the bits
// are no number. With a smaller exponent the product is exact.
fn in_fractions(bits: u64, h: u64) -> Result<i64, Refusal>
    requires { (1 ≤ h) × (h ≤ 8) }
    ensures { whole_number result ≡ in_fractions bits h }
{
    if 1076 - h <= (bits >> 52) & 0x7ff {
        return Err(Refusal::NotInFractions);
    }
    let product = f64::from_bits(bits) * ((1u64 << h) as f64);
    let whole = std::num::truncating_f64_to_i64(product);
    if whole as f64 == product {
        return Ok(whole);
    }
    Err(Refusal::NotInFractions)
}

// Reads a real in fractions. It uses the bits and ignores the value beside them.
pub fn fractions(r: Real) -> Result<i64, Refusal>
    ensures { whole_number result ≡ fractions_of r }
{
    if !hint_within(r, 1, 8) {
        return Err(Refusal::NotInFractions);
    }
    in_fractions(r.bits, r.hint)
}
