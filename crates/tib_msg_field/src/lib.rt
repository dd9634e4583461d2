// One step of the traversal of a TibMsg message: reads the field at the front of octets. This crate also has the definitions of a message
// and of its reading, and the laws between them.
#![tactic(auto)]

ghost use Rattle.std.specs.Prelude.{◌≡◌, ◌+◌, ◌<◌, ◌^◌, length};
ghost use Rattle.tib_msg_field.specs.Layout.{kind as kind-of, hinted as hinted-of, size_width, is_width, size_allowed};
ghost use Rattle.tib_msg_field.specs.Reading.{type_allowed, array_hint, partial_hint, value_hint, read_hint, hint_at, from_data, from_size, from_type, next_field, total};
ghost use Rattle.tib_field.specs.internal.Measured.{step_of, measured};
ghost use Rattle.tib_msg_field.specs.internal.Numbers.{hint_step};

use reading::Refusal;

// The sizes of the parts of a field, and its type octet.
#[derive(Clone, Copy)]
pub struct Sizes {
    pub name: usize,
    pub octet: u8,
    pub width: usize,
    pub contents: usize,
    pub hint: usize,
}

// Returns the type that a type octet names.
pub fn kind(c: u8) -> u64
    ensures { result ≡ kind-of c }
{
    u64::from(c & 15)
}

// Returns whether a type octet announces a hint.
pub fn hinted(c: u8) -> bool
    ensures { result ≡ hinted-of c }
{
    (c >> 6) & 1 == 1
}

// Returns how many octets the size of the data takes.
pub fn size_width(c: u8) -> usize
    ensures { result ≡ size_width c }
{
    if (c >> 7) & 1 == 1 { 4 } else { 1 }
}

// Returns whether n is the width of a whole number: 1, 2, 4 or 8 octets.
#[tactic(auto, unfolding(crate::specs::Layout::is_width))]
fn is_width(n: u64) -> bool
    ensures { result ≡ is_width n }
{
    matches!(n, 1 | 2 | 4 | 8)
}

// Returns whether a type octet is allowed: the two unused bits are clear, the type is 10 at most, and an array and a partial have a hint.
// The first two are one test of the low six bits.
fn type_allowed(c: u8) -> bool
    ensures { result ≡ type_allowed c }
{
    let low = c & 63;
    if 10 < low {
        return false;
    }
    if low < 8 {
        return true;
    }
    if low == 10 {
        return true;
    }
    hinted(c)
}

// Returns whether data of the type k may have n octets.
#[tactic(auto, unfolding(crate::specs::Layout::size_allowed))]
fn size_allowed(k: u64, n: u64) -> bool
    ensures { result ≡ size_allowed k n }
{
    match k {
        5 | 6 => is_width(n),
        7 => n == 4 || n == 8,
        _ => true,
    }
}

// Returns the octets of the hint of an array of `size` octets, or a refusal. The hint is the type and the size of the elements.
fn array_hint(size: u64, t: u64, n: u64) -> Result<u64, Refusal>
    ensures { hint_step result ≡ array_hint size t n }
{
    if t < 4 {
        return Err(Refusal::TypeSizeOrHint);
    }
    if 7 < t {
        return Err(Refusal::TypeSizeOrHint);
    }
    if !is_width(n) {
        return Err(Refusal::TypeSizeOrHint);
    }
    if size % n != 0 {
        return Err(Refusal::TypeSizeOrHint);
    }
    Ok(2)
}

// Returns the octets of the hint of a partial, which has the type 6, or a refusal.
fn partial_hint(t: u64) -> Result<u64, Refusal>
    ensures { hint_step result ≡ partial_hint t }
{
    if t == 6 {
        Ok(2)
    } else {
        Err(Refusal::TypeSizeOrHint)
    }
}

// Returns the octets of any other hint, which is a type, a size, and a value of that size, or a refusal. The type and the size are tested before the value is found to be cut.
fn value_hint(t: u64, n: u64, remaining: usize) -> Result<u64, Refusal>
    ensures { hint_step result ≡ value_hint t n remaining }
{
    if t < 5 {
        return Err(Refusal::TypeSizeOrHint);
    }
    if 6 < t {
        return Err(Refusal::TypeSizeOrHint);
    }
    if !is_width(n) {
        return Err(Refusal::TypeSizeOrHint);
    }
    if (remaining as u64) < n {
        return Err(Refusal::Cut);
    }
    Ok(2 + n)
}

// Returns the octets of the hint at the front of octets, by the field's type and the size of its data, or a refusal.
fn read_hint(k: u64, size: u64, s: &[u8]) -> Result<u64, Refusal>
    ensures { hint_step result ≡ read_hint k size s.now }
{
    if s.len() < 2 {
        return Err(Refusal::Cut);
    }
    let t = u64::from(s[0]);
    let n = u64::from(s[1]);
    if k == 8 {
        return array_hint(size, t, n);
    }
    if k == 9 {
        return partial_hint(t);
    }
    value_hint(t, n, s.len() - 2)
}

// Returns the octets of the hint after the data: 0 where the type octet announces none.
fn hint_at(c: u8, size: u64, s: &[u8]) -> Result<u64, Refusal>
    ensures { hint_step result ≡ hint_at c size s.now }
{
    if hinted(c) {
        read_hint(kind(c), size, s)
    } else {
        Ok(0)
    }
}

// Returns the octets of a field, or its refusal, by what stands from its data on. The data have l octets by their size.
fn from_data(n: usize, c: u8, w: usize, l: u64, s: &[u8]) -> Result<u64, Refusal>
    requires { 2 + n + w + length s.now < 2 ^ 64 }
    ensures { step_of result ≡ measured total (from_data n c w l s.now) }
{
    if (s.len() as u64) < l {
        return Err(Refusal::PastTheEnd);
    }
    let d = l as usize;
    let h = hint_at(c, l, &s[d..])?;
    Ok((2 + n + w + d) as u64 + h)
}

// Returns the octets of a field, or its refusal, by what stands from its size on. The size takes four octets.
fn from_long(n: usize, c: u8, s: &[u8]) -> Result<u64, Refusal>
    requires { 2 + n + length s.now < 2 ^ 64 }
    ensures { step_of result ≡ measured total (from_size n c 4 s.now) }
{
    if s.len() < 4 {
        return Err(Refusal::Cut);
    }
    let l = tib_field::uint(&s[0..4]);
    if size_allowed(kind(c), l) {
        from_data(n, c, 4, l, &s[4..])
    } else {
        Err(Refusal::TypeSizeOrHint)
    }
}

// The same for a size of one octet or four. Each has its own branch: the processor then need not wait for
// the type octet to find the next field.
fn from_size(n: usize, c: u8, s: &[u8]) -> Result<u64, Refusal>
    requires { 2 + n + length s.now < 2 ^ 64 }
    ensures { step_of result ≡ measured total (from_size n c (size_width c) s.now) }
{
    if size_width(c) == 4 {
        return from_long(n, c, s);
    }
    if s.len() == 0 {
        return Err(Refusal::Cut);
    }
    let l = u64::from(s[0]);
    if size_allowed(kind(c), l) {
        from_data(n, c, 1, l, &s[1..])
    } else {
        Err(Refusal::TypeSizeOrHint)
    }
}

// Returns the octets of a field, or its refusal, by what stands from its type on. Its name has n octets.
fn from_type(n: usize, s: &[u8]) -> Result<u64, Refusal>
    requires { 1 + n + length s.now < 2 ^ 64 }
    ensures { step_of result ≡ measured total (from_type n s.now) }
{
    if s.len() == 0 {
        return Err(Refusal::Cut);
    }
    let c = s[0];
    if type_allowed(c) {
        from_size(n, c, &s[1..])
    } else {
        Err(Refusal::TypeSizeOrHint)
    }
}

// Returns how many octets the field at the front of octets has, 0 where there are none, or its refusal. It reads the size of the name from its octet,
// not from the result of the test of the name, so that the processor need not wait for that test to find the next field.
pub fn field_octets(s: &[u8]) -> Result<u64, Refusal>
    ensures { step_of result ≡ measured total (next_field s.now) }
{
    if s.len() == 0 {
        return Ok(0);
    }
    tib_field::check_name(s)?;
    let n = usize::from(s[0]);
    let start = 1 + n;
    from_type(n, &s[start..])
}
