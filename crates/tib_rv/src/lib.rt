// Reads TibrvMsg messages: checks a whole message, and returns its k-th outermost field.
#![tactic(auto)]

ghost use Rattle.std.specs.Prelude.{◌≡◌, ◌+◌, ◌≤◌, ◌<◌, ◌^◌, length};
ghost use Rattle.std.proofs.Math.Option.{some};
ghost use Rattle.tib_rv_field.specs.Reading.{following as following-of, counted, next_field, lead as lead-of, total, header_fault, message_from, reading};
ghost use Rattle.tib_rv_field.specs.Layout.{depth};
ghost use Rattle.reading.specs.Reading.{message_limit, depth_limit};
ghost use Rattle.reading.specs.Checks.{checked};
ghost use Rattle.reading.specs.Refusals.{fault_number};
ghost use Rattle.reading.specs.internal.Verdicts.{IsAccepted, verdict, verdict_of};
ghost use Rattle.tib_field.specs.InNumbers.{accepted_field, field_answer};
ghost use Rattle.tib_field.specs.internal.KthOf.{kth_of};
ghost use Rattle.tib_rv.specs.CheckAndField.{count, check as check-of, places, field as field_of};
ghost use Rattle.tib_rv.specs.internal.Found.{any_field, HasField, found_at, shown_sizes};

use reading::{Counts, Fault, Refusal};
use tib_field::{Field, Span};
use tib_rv_field::{Extent, Sizes};

// Checks a header.
fn check_header(s: &[u8]) -> Result<(), Refusal>
    ensures { fault_number result ≡ header_fault s.now }
{
    if s.len() < 8 {
        return Err(Refusal::Cut);
    }
    if !tib_field::begins(&s[4..], b"\x99\x55\xee\xaa") {
        return Err(Refusal::Magic);
    }
    if tib_field::uint(&s[0..4]) != s.len() as u64 {
        return Err(Refusal::Size);
    }
    Ok(())
}

// Returns the place of the data of a field of these sizes.
#[tactic(auto, unfolding(tib_rv_field::specs::Reading::total, tib_rv_field::specs::Reading::lead))]
fn data_at(at: usize, z: Sizes) -> usize
    requires { at + total z < 2 ^ 64 }
    ensures { result ≡ at + lead-of z }
{
    at + 2 + z.name + z.width
}

// Returns the place after a field of these sizes.
#[tactic(auto, unfolding(tib_rv_field::specs::Reading::total, tib_rv_field::specs::Reading::lead))]
fn past(at: usize, z: Sizes) -> usize
    requires { at + total z < 2 ^ 64 }
    ensures { result ≡ at + total z }
{
    data_at(at, z) + z.contents
}

// Traverses a message, whose header starts at the place `at`, in a field at the place `field`. The message may be `levels` messages deep,
// itself counted; a nested message may be one less.
// Kept: each step takes a field's octets; an iterator over fields would have this loop's body in `next`, and its own invariant besides.
fn message(s: &[u8], levels: u64, field: u64, at: u64) -> Result<Counts, Fault>
    requires s_bound { at + length s.now ≤ message_limit }
    requires levels_le_depth_limit { levels ≤ depth_limit }
    ensures { verdict result ≡ verdict_of count depth (message_from levels field at s.now) }
{
    if levels == 0 {
        return Err(Refusal::TooDeep.at(field));
    }
    match check_header(s) {
        Ok(()) => {}
        Err(refusal) => return Err(refusal.at(at)),
    }
    let mut i: usize = 8;
    let mut fields: u64 = 0;
    let mut depth: u64 = 1;
    while i < s.len() {
        match tib_rv_field::field_octets(&s[i..]) {
            Ok(Extent::Plain(n)) => {
                i += n as usize;
                fields += 1;
            }
            Ok(Extent::Holder(n)) => {
                let a = i + 3 + usize::from(s[i]);
                let e = i + n as usize;
                let inner = message(&s[a..e], levels - 1, at + i as u64, at + a as u64)?;
                i = e;
                fields += 1 + inner.fields;
                depth = depth.max(inner.depth + 1);
            }
            Err(refusal) => return Err(refusal.at(at + i as u64)),
        }
    }
    Ok(Counts { fields, depth })
}

// Reads a whole message and its nested ones.
fn read(s: &[u8]) -> Result<Counts, Fault>
    ensures { verdict result ≡ verdict_of count depth (reading s.now) }
{
    if reading::MESSAGE_LIMIT < s.len() {
        return Err(Refusal::TooLong.at(0));
    }
    message(s, reading::DEPTH_LIMIT, 0, 0)
}

// Checks a whole TibrvMsg. Returns its refusal, or the count of its fields at all depths and the depth of its deepest message.
pub fn check(message: &[u8]) -> Result<Counts, Fault>
    ensures { checked result ≡ check-of message.now }
{
    read(message)
}

// Returns the count in a size, by its first octet and the octets after that. Internal: these are all there.
fn count_of(m: u64, s: &[u8]) -> u64
    requires { following-of m ≤ length s.now }
    ensures { result ≡ counted m s.now }
{
    if m < 0x79 {
        return m;
    }
    let w = tib_rv_field::following(m);
    tib_field::uint(&s[0..w])
}

// Returns the sizes of the field at the front of octets, whether it holds a message or not. Internal: the field is good.
fn sizes_at(s: &[u8]) -> Sizes
    requires { HasField s.now }
    ensures { any_field (next_field s.now) ≡ some result }
{
    let n = usize::from(s[0]);
    let at = 1 + n;
    let c = s[at];
    let size = at + 1;
    let m = u64::from(s[size]);
    let rest = size + 1;
    let k = count_of(m, &s[rest..]) as usize;
    if c == 1 {
        return Sizes {
            name: n,
            octet: c,
            width: 1,
            contents: k,
        };
    }
    Sizes {
        name: n,
        octet: c,
        width: 1 + tib_rv_field::following(m),
        contents: k - (tib_rv_field::own(m) as usize),
    }
}

// Returns the place and the sizes of the k-th outermost field. Internal: the caller has already checked the message.
// Kept: one walk for both formats would take two functions and a law that ties what they return to the format's reading, which is longer than this.
fn find(s: &[u8], k: u64) -> Option<(usize, Sizes)>
    requires { IsAccepted (reading s.now) }
    ensures { result ≡ found_at (kth_of places k (reading s.now)) }
{
    let mut i: usize = 8;
    let mut remaining = k;
    while i < s.len() {
        let z = sizes_at(&s[i..]);
        if remaining == 0 {
            return Some((i, z));
        }
        i = past(i, z);
        remaining -= 1;
    }
    None
}

// Returns the field of these sizes at a place.
#[tactic(auto, unfolding(tib_rv_field::specs::Reading::total, tib_rv_field::specs::Reading::lead))]
fn shown(at: usize, z: Sizes) -> Field
    requires { at + total z < 2 ^ 64 }
    ensures { accepted_field result ≡ shown_sizes at z }
{
    Field {
        name: Span {
            place: (at + 1) as u64,
            length: z.name as u64,
        },
        kind: u64::from(z.octet),
        data: Span {
            place: data_at(at, z) as u64,
            length: z.contents as u64,
        },
        hint: None,
        real: tib_field::no_real(),
    }
}

// Returns the k-th outermost field, from 0, of a TibrvMsg: the check's refusal, or Absent where there is no such field, or the field.
pub fn field(message: &[u8], k: u64) -> Result<Field, Fault>
    ensures { field_answer result ≡ field_of message.now k }
{
    read(message)?;
    match find(message, k) {
        Some((place, sizes)) => Ok(shown(place, sizes)),
        None => Err(Refusal::Absent.at(0)),
    }
}
