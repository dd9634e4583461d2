// The shortener: writes the shortest octets that read the same as a message.
ghost use Rattle.std.specs.Prelude.{◌≡◌, ◌∷◌, ◌+◌, ◌*◌, ◌-◌, ◌≤◌, ◌<◌, length, drop, MatchOption};
ghost use Rattle.octets.specs.Number.{Octets, octets_of};
ghost use Rattle.octets.specs.Control.{least_control, control as control-of};
ghost use Rattle.octets_store.specs.Store.{stored};
ghost use Rattle.octets_store.specs.internal.Moved.{moved};
ghost use Rattle.table_index.specs.internal.Cells.{meaning_of, indexed};
ghost use Rattle.message_field.specs.internal.Heads.{Field, Fieldless, head_at};
ghost use Rattle.message.specs.Cut.{Contents};
ghost use Rattle.message.specs.internal.Accepts.{Accepts};
ghost use Rattle.message.specs.Tree.{value};
ghost use Rattle.message.specs.Shortest.{field, least_contents};
ghost use Rattle.message_calls.specs.Results.{shortened_numbers};
ghost use Rattle.message_calls.specs.internal.ShortenUnder.{shorten_under, buffer_under, copy_answer, copy_buffer};
ghost use Rattle.message_calls.specs.internal.Stores.{shortest_within, Put};

use crate::index::Index;
use crate::{Shortened, sizes, traversal};
use message_field::Head;
use octets::{Control, Least};
use reading::{Fault, Refusal};

// Stores the octets of a number and returns the place after them. Most numbers take at most one octet, which needs no loop.
fn put_digits(out: &mut [u8], at: usize, w: u64, v: u64) -> usize
    requires { at + length (octets_of w v) ≤ length out.old }
    ensures { Put out.old at (octets_of w v) result out.new }
{
    if w < 2 {
        if w == 0 {
            return at;
        }
        out[at] = (v % 256) as u8;
        return at + 1;
    }
    octets_put::put_number(out, at, w, v);
    at + (w as usize)
}

// The control part of a tag below 14 and a length below 12, which takes one octet.
fn one_octet(tag: u16, n: usize) -> u8
    requires { (tag < 14) × (n < 12) }
    ensures { result ≡ tag * 16 + n }
{
    ((tag as u8) << 4) + (n as u8)
}

// Stores a control part of two octets or more and returns the place after it. If the first octet has the length, as for most fields with a
// large tag, the octets are stored without a loop.
fn put_wide_control(tag: u16, n: usize, out: &mut [u8], to: usize) -> usize
    requires { to + length (least_control tag n) ≤ length out.old }
    ensures { Put out.old to (least_control tag n) result out.new }
{
    if tag < 14 || 12 <= n {
        octets_put::put_control(out, to, tag, n as u64);
        return to + octets_put::control_size(tag, n as u64);
    }
    if tag < 256 {
        out[to] = 224 + (n as u8);
        out[to + 1] = tag as u8;
        return to + 2;
    }
    out[to] = 240 + (n as u8);
    out[to + 1] = (tag >> 8) as u8;
    out[to + 2] = (tag % 256) as u8;
    to + 3
}

// Stores the least control part and returns the place after it. Most take one octet, which needs no call.
fn put_least_control(tag: u16, n: usize, out: &mut [u8], to: usize) -> usize
    requires { to + length (least_control tag n) ≤ length out.old }
    ensures { Put out.old to (least_control tag n) result out.new }
{
    if tag < 14 && n < 12 {
        out[to] = one_octet(tag, n);
        return to + 1;
    }
    put_wide_control(tag, n, out, to)
}

// Stores a field whose contents are the octets of a number.
fn put_least(tag: u16, least: Least, out: &mut [u8], to: usize) -> usize
    requires { to + length (field tag (octets_of least.width least.bits)) ≤ length out.old }
    ensures { Put out.old to (field tag (octets_of least.width least.bits)) result out.new }
{
    let w = least.width;
    let v = least.bits;
    let a = put_least_control(tag, w as usize, out, to);
    put_digits(out, a, w, v)
}

// Stores a field whose contents are copied.
fn put_plain(tag: u16, s: &[u8], out: &mut [u8], to: usize) -> usize
    requires { to + length (field tag s.now) ≤ length out.old }
    ensures { Put out.old to (field tag s.now) result out.new }
{
    let n = s.len();
    let a = put_least_control(tag, n, out, to);
    octets_store::put_octets(out, a, s);
    a + n
}

// Stores a field that is no message in its least form, by the code of its tag's kind.
fn put_value(code: u64, tag: u16, s: &[u8], out: &mut [u8], to: usize) -> usize
    requires contents { Contents (meaning_of code) s.now }
    requires s_in_bounds { to + length (field tag (least_contents (value (meaning_of code) s.now))) ≤ length out.old }
    ensures { Put out.old to (field tag (least_contents (value (meaning_of code) s.now))) result out.new }
{
    match sizes::least(code, s) {
        Some(least) => put_least(tag, least, out, to),
        None => put_plain(tag, s, out, to),
    }
}

// Stores the control part of a message field at `to`. Its n octets of contents are already written and start at `to + 1`; they are moved
// only if the control part takes more than one octet.
fn wrap(tag: u16, out: &mut [u8], to: usize, n: usize) -> usize
    requires { to + length (least_control tag n) + n ≤ length out.old }
    ensures value { result ≡ to + length (least_control tag n) + n }
    ensures out_after { out.new ≡ stored (moved out.old (to + 1) n (length (least_control tag n) - 1)) to (least_control tag n) }
{
    if tag < 14 && n < 12 {
        out[to] = one_octet(tag, n);
        return to + 1 + n;
    }
    let size = octets_put::control_size(tag, n as u64);
    octets_store::move_up(out, to + 1, n, size - 1);
    put_wide_control(tag, n, out, to) + n
}

// Kept: the control part with this first octet and these octets after it. Most take one octet, so that case is tested first. The compiler does not
// inline `octets_read::control` here, and the shortener then takes a fifth longer.
fn control(c: u8, s: &[u8]) -> Control
    ensures { result ≡ control-of (c ∷ s.now) }
{
    if c < 224 && c & 15 < 12 {
        return Control::Whole {
            tag: (c >> 4) as u64,
            length: (c & 15) as u64,
            size: 1,
        };
    }
    octets_read::control_after(c, s).control
}

// Kept: the head of the field at the offset i of a message, as `message_field::field_at` returns it. The compiler does not inline that function into
// `write`, and the shortener then takes a fifth to a third longer.
fn next_field(s: &[u8], i: usize) -> Option<Head>
    ensures { MatchOption result (Fieldless (head_at i (drop i s.now))) (λ h. head_at i (drop i s.now) ≡ Field h.tag h.start h.end) }
{
    if s.len() <= i {
        return None;
    }
    let Control::Whole { tag, length, size } = control(s[i], &s[i + 1..]) else {
        return None;
    };
    let start = i + (size as usize);
    let remaining = (s.len() - start) as u64;
    if remaining < length {
        return None;
    }
    Some(Head {
        tag,
        start,
        end: start + (length as usize),
    })
}

// Writes the shortest form of an accepted message at `to` and returns the place after it. It writes a nested message before the control
// part of its field, because the control part needs the final length.
// Kept: the loop steps by a field's length, and the invariant of its proof speaks of the octets from that offset on.
fn write(cells: &[u32; 128], number: u64, levels: u64, s: &[u8], out: &mut [u8], to: usize) -> usize
    requires octets { Octets s.now }
    requires accepts { Accepts (indexed cells.now) levels number s.now }
    requires s_in_bounds { to + length (shortest_within (indexed cells.now) levels number s.now) ≤ length out.old }
    ensures { Put out.old to (shortest_within (indexed cells.now) levels number s.now) result out.new }
{
    let mut i: usize = 0;
    let mut place = to;
    while let Some(Head { tag: t, start, end }) = next_field(s, i) {
        // A tag is below 65,536, so the remainder is the tag. This makes the cast easy to prove.
        let tag = (t % 65536) as u16;
        let cell = table_index::cell(cells, number, t);
        let code = table_index::code(cell);
        if code < 5 {
            place = put_value(code, tag, &s[start..end], out, place);
            i = end;
        } else {
            let after = write(cells, code - 5, levels - 1, &s[start..end], out, place + 1);
            place = wrap(tag, out, place, after - (place + 1));
            i = end;
        }
    }
    place
}

// Copies a message that is in its shortest form already.
fn copied(message: &[u8], out: &mut [u8]) -> Result<usize, Fault>
    ensures value { shortened_numbers result ≡ copy_answer message.now out.old }
    ensures out_after { out.new ≡ copy_buffer message.now out.old }
{
    let n = message.len();
    if out.len() < n {
        return Err(Refusal::NoRoom.at(0));
    }
    octets_store::put_octets(out, 0, message);
    Ok(n)
}

// The shortener under an index.
pub(crate) fn shorten(
    index: &Index,
    number: u64,
    message: &[u8],
    out: &mut [u8],
) -> Result<usize, Fault>
    ensures value { shortened_numbers result ≡ shorten_under (indexed index.now.cells) number message.now out.old }
    ensures out_after { out.new ≡ buffer_under (indexed index.now.cells) number message.now out.old }
{
    let c = traversal::check(index, number, message)?;
    if c.shortest {
        return copied(message, out);
    }
    if !sizes::has_room(&index.cells, number, message, out.len()) {
        return Err(Refusal::NoRoom.at(0));
    }
    let end = write(&index.cells, number, reading::DEPTH_LIMIT, message, out, 0);
    Ok(end)
}

// The shortener's answer in numbers.
impl From<Result<usize, Fault>> for Shortened {
    ghost from_gives = { λ r answer. answer ≡ shortened_numbers r };

    fn from(written: Result<usize, Fault>) -> Shortened {
        match written {
            Ok(length) => Shortened {
                refusal: 0,
                place: 0,
                length: length as u64,
            },
            Err(fault) => Shortened {
                refusal: fault.refusal.number(),
                place: fault.place,
                length: 0,
            },
        }
    }
}
