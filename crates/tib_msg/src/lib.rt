// Reads TibMsg messages: checks a whole message, and returns its k-th field.
#![tactic(auto)]

ghost use Rattle.std.specs.Prelude.{◌≡◌, true, false, suc, ◌+◌, ◌≤◌, ◌<◌, ◌^◌, length, get_or, drop};
ghost use Rattle.tib_msg_field.specs.Layout.{hinted as hinted-of};
ghost use Rattle.tib_msg_field.specs.Reading.{next_field, total, parts_at, fields_from, reading};
ghost use Rattle.reading.specs.Reading.{message_limit};
ghost use Rattle.reading.specs.Checks.{checked};
ghost use Rattle.reading.specs.internal.Verdicts.{IsAccepted, verdict, verdict_of};
ghost use Rattle.tib_field.specs.internal.KthOf.{kth_of};
ghost use Rattle.tib_field.specs.InNumbers.{accepted_field, field_answer};
ghost use Rattle.tib_field.specs.Steps.{Over, flat_depth};
ghost use Rattle.tib_msg.specs.CheckAndField.{check as check-of, hint_value, real_shown, shown as Shown-of, places, field as field_of};
ghost use Rattle.tib_msg.specs.internal.Found.{found_at, HasField, hint_octets};

use reading::{Counts, Fault, Refusal};
use tib_field::{Field, Hint, Span};
use tib_msg_field::Sizes;
use tib_real::types::Real;

// Returns the place after a field of these sizes.
#[tactic(auto, unfolding(tib_msg_field::specs::Reading::total))]
fn past(at: usize, z: Sizes) -> usize
    requires { at + total z < 2 ^ 64 }
    ensures { result ≡ at + total z }
{
    at + 2 + z.name + z.width + z.contents + z.hint
}

// Traverses the fields of a message. Internal: the caller has already tested the length and the header.
// Kept: each step takes a field's octets; an iterator over fields would have this loop's body in `next`, and its own invariant besides.
fn traverse(s: &[u8]) -> Result<Counts, Fault>
    requires { (9 ≤ length s.now) × (length s.now ≤ message_limit) }
    ensures { verdict result ≡ verdict_of length flat_depth (fields_from (suc (length s.now)) 9 (drop 9 s.now)) }
{
    let mut i: usize = 9;
    let mut fields: u64 = 0;
    while i < s.len() {
        match tib_msg_field::field_octets(&s[i..]) {
            Ok(n) => {
                i += n as usize;
                fields += 1;
            }
            Err(refusal) => return Err(refusal.at(i as u64)),
        }
    }
    Ok(Counts { fields, depth: 1 })
}

// Reads a whole message: its header, then its fields.
fn read(message: &[u8]) -> Result<Counts, Fault>
    ensures { verdict result ≡ verdict_of length flat_depth (reading message.now) }
{
    if reading::MESSAGE_LIMIT < message.len() {
        return Err(Refusal::TooLong.at(0));
    }
    match tib_field::check_header(message, b"\xce\x13\xaa\x1f\x01") {
        Ok(()) => traverse(message),
        Err(refusal) => Err(refusal.at(0)),
    }
}

// Checks a whole TibMsg. Returns its refusal, or the count of its fields and the depth 1.
pub fn check(message: &[u8]) -> Result<Counts, Fault>
    ensures { checked result ≡ check-of message.now }
{
    read(message)
}

// Returns how many octets the hint at the front of octets takes, by the field's type octet. Internal: the hint is good.
fn hint_octets(c: u8, s: &[u8]) -> usize
    requires { hinted-of c ≡ true → 2 ≤ length s.now }
    ensures { result ≡ hint_octets c s.now }
{
    if !tib_msg_field::hinted(c) {
        return 0;
    }
    let k = tib_msg_field::kind(c);
    if k == 8 {
        return 2;
    }
    if k == 9 {
        return 2;
    }
    2 + usize::from(s[1])
}

// Returns the sizes of the field at the front of octets. Internal: the field is good.
fn sizes_at(s: &[u8]) -> Sizes
    requires { HasField s.now }
    ensures { next_field s.now ≡ Over result }
{
    let n = usize::from(s[0]);
    let at = 1 + n;
    let c = s[at];
    let w = tib_msg_field::size_width(c);
    let start = at + 1;
    let end = start + w;
    let l = tib_field::uint(&s[start..end]) as usize;
    let hint = end + l;
    Sizes {
        name: n,
        octet: c,
        width: w,
        contents: l,
        hint: hint_octets(c, &s[hint..]),
    }
}

// Returns the place and the sizes of the k-th field. Internal: the caller has already checked the message.
// Kept: one walk for both formats would take two functions and a law that ties what they return to the format's reading, which is longer than this.
fn find(s: &[u8], k: u64) -> Option<(usize, Sizes)>
    requires { IsAccepted (reading s.now) }
    ensures { result ≡ found_at (kth_of places k (reading s.now)) }
{
    let mut i: usize = 9;
    let mut remaining = k;
    while i < s.len() {
        let z = sizes_at(&s[i..]);
        if remaining == 0 {
            return Some((i, z));
        }
        i = past(i, z);
        remaining -= 1;
    }
    None
}

// Returns the first octet, 0 if there is none.
fn first(s: &[u8]) -> u64
    ensures { result ≡ get_or s.now 0 0 }
{
    if s.len() == 0 {
        return 0;
    }
    u64::from(s[0])
}

// Returns the value of a hint, by the field's type and the hint's octets.
fn hint_value(k: u64, s: &[u8]) -> u64
    requires { length s.now ≤ 10 }
    ensures { result ≡ hint_value k s.now }
{
    if s.len() < 2 {
        return 0;
    }
    if k == 8 {
        return u64::from(s[1]);
    }
    if k == 9 {
        return u64::from(s[1]);
    }
    tib_field::uint(&s[2..])
}

// Returns the real of a field of type 7, and a real of zeros for any other field.
fn real_shown(k: u64, s: &[u8], hint: u64, present: bool) -> Real
    ensures { result ≡ real_shown k s.now hint present }
{
    if k == 7 {
        tib_real::real(s, hint, present)
    } else {
        tib_field::no_real()
    }
}

// Returns the field of these sizes at a place. A field without a hint has no octets for one.
#[tactic(auto, unfolding(tib_msg_field::specs::Reading::total))]
fn shown(message: &[u8], at: usize, z: Sizes) -> Field
    requires { (at + total z ≤ length message.now) × (z.hint ≤ 10) × (hinted-of z.octet ≡ false → z.hint ≡ 0) }
    ensures { accepted_field result ≡ Shown-of at (parts_at (drop at message.now) z) }
{
    let k = tib_msg_field::kind(z.octet);
    let start = at + 2 + z.name + z.width;
    let hint = start + z.contents;
    let end = hint + z.hint;
    let present = tib_msg_field::hinted(z.octet);
    let value = hint_value(k, &message[hint..end]);
    Field {
        name: Span {
            place: (at + 1) as u64,
            length: z.name as u64,
        },
        kind: k,
        data: Span {
            place: start as u64,
            length: z.contents as u64,
        },
        hint: present.then_some(Hint {
            kind: first(&message[hint..end]),
            value,
        }),
        real: real_shown(k, &message[start..hint], value, present),
    }
}

// Returns the k-th field, from 0, of a TibMsg: the check's refusal, or Absent where there is no such field, or the field.
pub fn field(message: &[u8], k: u64) -> Result<Field, Fault>
    ensures { field_answer result ≡ field_of message.now k }
{
    read(message)?;
    match find(message, k) {
        Some((place, sizes)) => Ok(shown(message, place, sizes)),
        None => Err(Refusal::Absent.at(0)),
    }
}
