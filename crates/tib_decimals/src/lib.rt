// Reads a real of the Tib formats in decimals. With m the significand and e the exponent of a real x, its size is m * 2^(e - 1075). So the size
// of x times 10^k is m * 5^k * 2^(e + k - 1075). The product m * 5^k has up to 74 bits, so it is kept in two parts.
#![tactic(auto)]

ghost use Rattle.std.specs.Prelude.{◌≡◌, ◌+◌, ◌*◌, ◌^◌, ◌≤◌, ◌<◌, eqb};
ghost use Rattle.tib_real.specs.WholeNumber.{signed};
ghost use Rattle.tib_real.specs.InNumbers.{whole_number};
ghost use Rattle.tib_decimals.specs.Nearest.{nearest};
ghost use Rattle.tib_decimals.specs.InDecimals.{answer as answer-of, in_decimals, decimals_of};
ghost use Rattle.tib_decimals.specs.internal.Sizes.{capped, size_of, Factors};

use reading::Refusal;
use tib_real::types::Real;

// The largest size of a number of 64 bits with a sign, and one more, which stands for every size above it.
const LARGEST: u64 = 0x8000_0000_0000_0000;

const TOO_LARGE: u64 = 0x8000_0000_0000_0001;

// Returns the k-th power of five. An array of the powers would be built again in each call.
fn power_of_five(k: u64) -> u64
    requires { k ≤ 9 }
    ensures { result ≡ 5 ^ k }
{
    match k {
        1 => 5,
        2 => 25,
        3 => 125,
        4 => 625,
        5 => 3125,
        6 => 15625,
        7 => 78125,
        8 => 390625,
        9 => 1953125,
        _ => 1,
    }
}

// Returns high * 2^32 + low over 2^(t + 32), rounded to the nearest whole number, a tie to the even one. Adds one less than a half, and the last
// bit of the whole part, then shifts. Of the low part's sum only the carry counts.
fn small(high: u64, low: u64, t: u64) -> u64
    requires { (high < 2 ^ 52) × (low < 2 ^ 32) × (0 < t) × (t ≤ 52) }
    ensures { result ≡ nearest (high * 2 ^ 32 + low) (2 ^ (t + 32)) }
{
    let odd = (high >> t) & 1;
    let carry = (low + 0xffff_ffff + odd) >> 32;
    (high + ((1 << (t - 1)) - 1) + carry) >> t
}

// Returns high * 2^32 + low over 2^t, rounded in the same way, or TOO_LARGE. With a high part above 2^(31 + t) the result is above 2^63. Since
// high * 2^32 is a multiple of 2^t, only the low part is rounded.
fn large(high: u64, low: u64, t: u64) -> u64
    requires { (high < 2 ^ 52) × (low < 2 ^ 32) × (0 < t) × (t ≤ 32) }
    ensures { result ≡ capped (nearest (high * 2 ^ 32 + low) (2 ^ t)) }
{
    if (1 << (31 + t)) < high {
        return TOO_LARGE;
    }
    let whole = high << (32 - t);
    let odd = (whole + (low >> t)) & 1;
    let size = whole + ((low + ((1 << (t - 1)) - 1) + odd) >> t);
    if LARGEST < size { TOO_LARGE } else { size }
}

// Returns m * f * 2^(e - 1075), rounded in the same way, or TOO_LARGE. From e = 1085 on the result is at least 2^64; below 1001 it is less than a
// half. Shifts m up by 10 bits first, so that the product is only ever shifted down: by more than 32 bits if e is below 1053.
fn size(m: u64, f: u64, e: u64) -> u64
    requires { Factors m f e }
    ensures { result ≡ capped (size_of m f e) }
{
    if 1085 <= e {
        return TOO_LARGE;
    }
    if e < 1001 {
        return 0;
    }
    let shifted = m << 10;
    let product = (shifted & 0xffff_ffff) * f;
    let high = (shifted >> 32) * f + (product >> 32);
    let low = product & 0xffff_ffff;
    if e < 1053 {
        return small(high, low, 1053 - e);
    }
    large(high, low, 1085 - e)
}

// Returns the number with this sign, 1 if it is below zero, and this size. Subtracting one first keeps every intermediate value in range when
// the size is 2^63.
fn with_sign(sign: u64, n: u64) -> i64
    requires { (sign ≤ 1) × (n < 2 ^ 63 + sign) }
    ensures { result ≡ signed (eqb sign 1) n }
{
    if sign == 0 {
        return n as i64;
    }
    if n == 0 {
        return 0;
    }
    let d = (n - 1) as i64;
    -1 - d
}

// Returns the number with this sign and this size, or the refusal if it is out of range.
fn answer(sign: u64, n: u64) -> Result<i64, Refusal>
    requires { sign ≤ 1 }
    ensures { whole_number result ≡ answer-of (eqb sign 1) n }
{
    if LARGEST + sign <= n {
        return Err(Refusal::NotInFractions);
    }
    Ok(with_sign(sign, n))
}

// Reads the real with these bits in decimals, with k digits after the point. Infinities and not-a-numbers need no test: with their exponent
// `size` returns TOO_LARGE. Zero and subnormals get a wrong significand here, but with exponent 0 `size` returns 0 for every significand.
fn in_decimals(bits: u64, k: u64) -> Result<i64, Refusal>
    requires { (1 ≤ k) × (k ≤ 9) }
    ensures { whole_number result ≡ in_decimals bits k }
{
    let m = 0x10_0000_0000_0000 + (bits & 0xf_ffff_ffff_ffff);
    let e = (bits >> 52) & 0x7ff;
    answer(bits >> 63, size(m, power_of_five(k), e + k))
}

// Reads a real in decimals: the whole number nearest to it times 10^k, a tie to the even one, where k is the hint less 16. It uses the bits
// and ignores the value beside them.
pub fn decimals(r: Real) -> Result<i64, Refusal>
    ensures { whole_number result ≡ decimals_of r }
{
    if !tib_real::hint_within(r, 17, 25) {
        return Err(Refusal::NotInFractions);
    }
    in_decimals(r.bits, r.hint - 16)
}
