// One step of the traversal of a TibrvMsg message: reads the field at the front of octets. This crate also has the definitions of a message
// and of its reading, and the laws between them.
#![tactic(auto)]

ghost use Rattle.std.specs.Prelude.{◌≡◌, cond, ◌-◌, ◌≤◌, ◌<◌, ◌^◌, ltb, length, take};
ghost use Rattle.octets.specs.Number.{big_endian};
ghost use Rattle.reading.specs.Refusals as refusals;
ghost use Rattle.tib_rv_field.specs.Reading.{Fault, following as following-of, own as own_of_lem, count_allowed, found as found_of, from_count, from_size, from_type, next_field};
ghost use Rattle.tib_field.specs.internal.Measured.{step_of};
ghost use Rattle.tib_field.specs.Steps.{Over as Whole};
ghost use Rattle.tib_rv_field.specs.internal.Measured.{measured};

use reading::Refusal;

// The sizes of the parts of a field, and its type octet. For a field that holds a message the width is 1, for the marker alone, and the
// contents are the message.
#[derive(Clone, Copy)]
pub struct Sizes {
    pub name: usize,
    pub octet: u8,
    pub width: usize,
    pub contents: usize,
}

// How many octets a field has, and whether it holds a message.
#[derive(Clone, Copy, Debug, PartialEq, Eq)]
pub enum Extent {
    Plain(u64),
    Holder(u64),
}

// Returns how many octets of a size follow its first octet.
pub fn following(m: u64) -> usize
    ensures value { result ≡ following-of m }
    ensures upper_bound { result ≤ 4 }
{
    if m == 0x79 {
        return 2;
    }
    if m == 0x7a {
        return 4;
    }
    0
}

// Returns how many of its own octets a size counts.
pub fn own(m: u64) -> u64
    ensures { result ≡ own_of_lem m }
{
    if 0x79 <= m {
        return following(m) as u64;
    }
    1
}

// Returns whether a size may count k octets. It counts at least its own octets, and type 1 uses the marker 7a.
fn count_allowed(c: u8, m: u64, k: u64) -> bool
    ensures { result ≡ count_allowed c m k }
{
    if k < own(m) {
        return false;
    }
    if c == 1 {
        return m == 0x7a;
    }
    true
}

// Returns the octets of a field that are all there. The message in a field of type 1 starts at the size octets, and the count is its length.
fn found(n: usize, c: u8, m: u64, k: u64) -> Extent
    requires m_bound { own_of_lem m ≤ k }
    requires n_bound { n < 256 }
    requires k_bound { k < 2 ^ 32 }
    ensures { Whole result ≡ measured (found_of n c m k) }
{
    if c == 1 {
        return Extent::Holder((3 + n) as u64 + k);
    }
    Extent::Plain((3 + n + following(m)) as u64 + (k - own(m)))
}

// Returns the octets of a field, or its refusal, by what stands from its data on; `remaining` octets follow.
fn from_count(n: usize, c: u8, m: u64, k: u64, remaining: usize) -> Result<Extent, Refusal>
    requires n_bound { n < 256 }
    requires k_bound { k < 2 ^ 32 }
    ensures { step_of result ≡ measured (from_count n c m k remaining) }
{
    if !count_allowed(c, m, k) {
        return Err(Refusal::TypeSizeOrHint);
    }
    if (remaining as u64) < k - own(m) {
        return Err(Refusal::PastTheEnd);
    }
    Ok(found(n, c, m, k))
}

// Returns the octets of a field, or its refusal, by what stands from the w octets of its size on that follow the first.
fn from_long(n: usize, c: u8, m: u64, w: usize, s: &[u8]) -> Result<Extent, Refusal>
    requires w_bound { w ≤ 4 }
    requires n_bound { n < 256 }
    ensures { step_of result ≡ measured (cond (ltb (length s.now) w) (Fault refusals.cut) (from_count n c m (big_endian (take w s.now)) (length s.now - w))) }
{
    if s.len() < w {
        return Err(Refusal::Cut);
    }
    let k = tib_field::uint(&s[0..w]);
    from_count(n, c, m, k, s.len() - w)
}

// Returns the octets of a field, or its refusal, by what stands from its size on. Most sizes are one octet, so that case is tested first.
fn from_size(n: usize, c: u8, s: &[u8]) -> Result<Extent, Refusal>
    requires { n < 256 }
    ensures { step_of result ≡ measured (from_size n c s.now) }
{
    if s.len() == 0 {
        return Err(Refusal::Cut);
    }
    let m = u64::from(s[0]);
    if m < 0x79 {
        return from_count(n, c, m, m, s.len() - 1);
    }
    if m == 0x79 {
        return from_long(n, c, m, 2, &s[1..]);
    }
    if m == 0x7a {
        return from_long(n, c, m, 4, &s[1..]);
    }
    Err(Refusal::TypeSizeOrHint)
}

// Returns the octets of a field, or its refusal, by what stands from its type on. Its name has n octets.
fn from_type(n: usize, s: &[u8]) -> Result<Extent, Refusal>
    requires { n < 256 }
    ensures { step_of result ≡ measured (from_type n s.now) }
{
    if s.len() == 0 {
        return Err(Refusal::Cut);
    }
    from_size(n, s[0], &s[1..])
}

// Returns the octets of the field at the front of octets, 0 where there are none, or its refusal. It reads the size of the name from its octet, not
// from the result of the test of the name, so that the processor need not wait for that test to find the next field.
pub fn field_octets(s: &[u8]) -> Result<Extent, Refusal>
    ensures { step_of result ≡ measured (next_field s.now) }
{
    if s.len() == 0 {
        return Ok(Extent::Plain(0));
    }
    tib_field::check_name(s)?;
    let n = usize::from(s[0]);
    let start = 1 + n;
    from_type(n, &s[start..])
}
