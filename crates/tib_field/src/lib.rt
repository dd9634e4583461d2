// What TibMsg, TibrvMsg and QForm share: the test of a name, the value of a size, and the test of a header; and the field that the readers of TibMsg
// and TibrvMsg return. This crate also has the definitions and laws of consecutive fields, of the k-th of them, and of the verdict on them.
#![tactic(auto)]

ghost use Rattle.std.specs.Prelude.{◌≡◌, ◌&&◌, ◌≤◌, ◌<◌, ◌+◌, false, eqb, ltb, length};
ghost use Rattle.octets.specs.internal.Bounded.{unsigned};
ghost use Rattle.reading.specs.Refusals.{fault_number};
ghost use Rattle.tib_field.specs.internal.Zeros.{ZeroIn, name_fault};
ghost use Rattle.tib_field.specs.Refused.{no_real, refused_field};
ghost use Rattle.tib_field.specs.InNumbers.{field_answer};
ghost use Rattle.tib_field.specs.Mark.{begins as begins-with};
ghost use Rattle.tib_field.specs.Header.{header_fault};

use reading::{Fault, Refusal};
use tib_real::types::Real;

// A part of the lent buffer: the place where it begins, counted from the start of the buffer, and its length.
#[derive(Clone, Copy, Debug, PartialEq, Eq)]
pub struct Span {
    pub place: u64,
    pub length: u64,
}

// The type and the value of a field's hint.
#[derive(Clone, Copy, Debug, PartialEq, Eq)]
pub struct Hint {
    pub kind: u64,
    pub value: u64,
}

// A field of a message: its name, with the closing zero (length 0 if it has no name); its type; its data; its hint, if it has one; and the
// value of a real.
#[derive(Clone, Copy)]
pub struct Field {
    pub name: Span,
    pub kind: u64,
    pub data: Span,
    pub hint: Option<Hint>,
    pub real: Real,
}

// The same in numbers, as the C functions return it: a refusal and its place, or 0, 0 and the field. Without a hint, its type and its value
// are 0.
#[derive(Clone, Copy)]
pub struct FieldAnswer {
    pub refusal: u64,
    pub place: u64,
    pub name_place: u64,
    pub name_length: u64,
    pub kind: u64,
    pub data_place: u64,
    pub data_length: u64,
    pub hinted: bool,
    pub hint_kind: u64,
    pub hint: u64,
    pub real: Real,
}

// Returns a real of zeros, for a field that is no real.
pub fn no_real() -> Real
    ensures { result ≡ no_real }
{
    tib_real::real(b"", 0, false)
}

// Returns a refusal in place of a field: the message is refused, or has no such field.
pub fn refused_field(refusal: u64, place: u64) -> FieldAnswer
    ensures { result ≡ refused_field refusal place }
{
    FieldAnswer {
        refusal,
        place,
        name_place: 0,
        name_length: 0,
        kind: 0,
        data_place: 0,
        data_length: 0,
        hinted: false,
        hint_kind: 0,
        hint: 0,
        real: no_real(),
    }
}

// The field in numbers, by the result of reading it.
impl From<Result<Field, Fault>> for FieldAnswer {
    ghost from_gives = { λ r answer. answer ≡ field_answer r };

    fn from(read: Result<Field, Fault>) -> FieldAnswer {
        match read {
            Ok(field) => {
                let hint = field.hint.unwrap_or(Hint { kind: 0, value: 0 });
                FieldAnswer {
                    refusal: 0,
                    place: 0,
                    name_place: field.name.place,
                    name_length: field.name.length,
                    kind: field.kind,
                    data_place: field.data.place,
                    data_length: field.data.length,
                    hinted: field.hint.is_some(),
                    hint_kind: hint.kind,
                    hint: hint.value,
                    real: field.real,
                }
            }
            Err(fault) => refused_field(fault.refusal.number(), fault.place),
        }
    }
}

// Returns the value of at most eight octets, 0 for more. One octet is the most common case, and needs no loop.
pub fn uint(s: &[u8]) -> u64
    ensures { result ≡ unsigned s.now }
{
    if s.len() == 1 {
        return u64::from(s[0]);
    }
    octets_read::uint(s).value
}

// Returns whether octets begin with a mark.
pub fn begins(s: &[u8], mark: &[u8]) -> bool
    ensures { result ≡ begins-with mark.now s.now }
{
    s.starts_with(mark)
}

// Checks the header of a message: a mark, then a size of four octets that does not count the header.
pub fn check_header(s: &[u8], mark: &[u8]) -> Result<(), Refusal>
    ensures { fault_number result ≡ header_fault mark.now s.now }
{
    let n = s.len();
    let m = mark.len();
    if n < 4 || n - 4 < m {
        return Err(Refusal::Cut);
    }
    if !begins(s, mark) {
        return Err(Refusal::Magic);
    }
    let end = m + 4;
    if uint(&s[m..end]) != (n - end) as u64 {
        return Err(Refusal::Size);
    }
    Ok(())
}

// Returns whether the octet x at the place i is zero and i is below n.
fn zero_below(x: u8, i: u8, n: u8) -> bool
    ensures { result ≡ (ltb i n && eqb x 0) }
{
    i < n && x == 0
}

// Returns whether a zero stands at one of the places 1 to 16 that are below n. It reads all sixteen octets and branches on none of them.
// Kept: with `contains` alone a name takes 2.5 times as long (names of 2 to 13 octets in 60,000), since their sizes differ.
fn zero_near(s: &[u8], n: u8) -> bool
    requires { 17 ≤ length s.now }
    ensures { ZeroIn result s.now 1 17 n }
{
    let mut z = false;
    for i in 1..17 {
        z = z | zero_below(s[i as usize], i, n);
    }
    z
}

// Returns whether a zero stands at a place from `from` to n.
fn zero_between(s: &[u8], from: usize, n: usize) -> bool
    requires { (from < n) × (n ≤ length s.now) }
    ensures { ZeroIn result s.now from n n }
{
    s[from..n].contains(&0)
}

// Returns whether a zero stands among the sixteen octets from a place on. It reads all sixteen and branches on none of them.
fn zero_of_sixteen(s: &[u8], at: usize) -> bool
    requires { at + 16 ≤ length s.now }
    ensures { ZeroIn result s.now at (at + 16) (at + 16) }
{
    let mut z = false;
    for i in 0..16 {
        z = z | (s[at + i] == 0);
    }
    z
}

// Returns whether a zero stands at a place from 1 to n, where none stands below 17. It reads sixteen octets at once; the last sixteen end at n,
// so that some may be read twice.
// Kept: with `contains` in place of the blocks names of 18 to 33 octets take 1.15 to 1.4 times as long, since their sizes differ.
fn zero_beyond(s: &[u8], n: usize) -> bool
    requires { (17 < n) × (n ≤ length s.now) × (ZeroIn false s.now 1 17 n) }
    ensures { ZeroIn result s.now 1 n n }
{
    for k in 0..(n - 18) / 16 {
        if zero_of_sixteen(s, 17 + 16 * k) {
            return true;
        }
    }
    zero_of_sixteen(s, n - 16)
}

// Returns whether a zero stands at a place from 1 to n.
#[inline(always)]
fn zero_inside(s: &[u8], n: u8) -> bool
    requires { n ≤ length s.now }
    ensures { ZeroIn result s.now 1 n n }
{
    let end = usize::from(n);
    if s.len() < 17 {
        return 1 < end && zero_between(s, 1, end);
    }
    zero_near(s, n) || 17 < end && zero_beyond(s, end)
}

// Checks the name at the front of octets; no octets are good too. A name that is cut is refused before its octets are tested. The last octet of
// a name of n octets stands at the place n, after the octet of its size; where n is 0, that is the size octet itself, and zero. The octets are
// passed on as a slice of their own: the compiler then keeps their address in registers.
// Inlined, and `zero_inside` too: with calls, a field of TibrvMsg with a short name takes half as many instructions again.
#[inline(always)]
pub fn check_name(s: &[u8]) -> Result<(), Refusal>
    ensures { fault_number result ≡ name_fault s.now }
{
    if s.len() == 0 {
        return Ok(());
    }
    let n = usize::from(s[0]);
    if s.len() - 1 < n {
        return Err(Refusal::Cut);
    }
    if s[n] != 0 {
        return Err(Refusal::Name);
    }
    if zero_inside(&s[0..], s[0]) {
        return Err(Refusal::Name);
    }
    Ok(())
}
