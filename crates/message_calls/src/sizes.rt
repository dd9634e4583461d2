// Measures the shortest form of a message without writing it.
ghost use Rattle.std.specs.Prelude.{◌≡◌, ◌≤◌, length, leb, MatchOption};
ghost use Rattle.reading.specs.Reading.{message_limit, depth_limit};
ghost use Rattle.octets.specs.Number.{Octets, octets_of};
ghost use Rattle.table_index.specs.internal.Cells.{meaning_of, indexed};
ghost use Rattle.message.specs.Cut.{Contents};
ghost use Rattle.message.specs.internal.Accepts.{Accepts};
ghost use Rattle.message.specs.Tree.{value};
ghost use Rattle.message.specs.Shortest.{field, least_contents};
ghost use Rattle.message_calls.specs.internal.Stores.{shortest_within};

use message_field::Head;
use octets::Least;

// The shortest form of contents that are a number, by the code of their kind; none for any other kind, whose contents have one form only. No
// number has more than eight octets: the test tells the compiler so, which then reads it in fewer steps.
pub(crate) fn least(code: u64, s: &[u8]) -> Option<Least>
    requires { Contents (meaning_of code) s.now }
    ensures { MatchOption result (least_contents (value (meaning_of code) s.now) ≡ s.now) (λ l. least_contents (value (meaning_of code) s.now) ≡ octets_of l.width l.bits) }
{
    if 8 < s.len() {
        return None;
    }
    if code == 1 {
        return Some(octets_least::uint_least(octets_read::uint(s).value));
    }
    if code == 2 {
        return Some(octets_least::int_least(octets_read::int(s).value));
    }
    None
}

// The length of the least contents, by the code of the tag's kind.
fn least_size(code: u64, s: &[u8]) -> usize
    requires { Contents (meaning_of code) s.now }
    ensures { result ≡ length (least_contents (value (meaning_of code) s.now)) }
{
    match least(code, s) {
        Some(l) => l.width as usize,
        None => s.len(),
    }
}

// The length of a field that is no message in its least form.
fn value_size(code: u64, tag: u16, s: &[u8]) -> usize
    requires contents { Contents (meaning_of code) s.now }
    requires s_len_bound { length s.now ≤ message_limit }
    ensures { result ≡ length (field tag (least_contents (value (meaning_of code) s.now))) }
{
    let n = least_size(code, s);
    octets_put::control_size(tag, n as u64) + n
}

// The length of the shortest form of an accepted message.
// Kept: the loop steps by a field's length, and the invariant of its proof speaks of the octets from that offset on.
fn measure(cells: &[u32; 128], number: u64, levels: u64, s: &[u8]) -> usize
    requires s_len_bound { length s.now ≤ message_limit }
    requires octets { Octets s.now }
    requires accepts { Accepts (indexed cells.now) levels number s.now }
    ensures { result ≡ length (shortest_within (indexed cells.now) levels number s.now) }
{
    let mut i: usize = 0;
    let mut size: usize = 0;
    while let Some(Head { tag: t, start, end }) = message_field::field_at(s, i) {
        let tag = (t % 65536) as u16;
        let cell = table_index::cell(cells, number, t);
        let code = table_index::code(cell);
        if code < 5 {
            size = size + value_size(code, tag, &s[start..end]);
            i = end;
        } else {
            let n = measure(cells, code - 5, levels - 1, &s[start..end]);
            size = size + (octets_put::control_size(tag, n as u64) + n);
            i = end;
        }
    }
    size
}

// Returns whether the shortest form of an accepted message takes at most `len` octets. It is no longer than the message, so it is
// measured only if the message takes more than `len`.
pub(crate) fn has_room(cells: &[u32; 128], number: u64, message: &[u8], len: usize) -> bool
    requires message_len_bound { length message.now ≤ message_limit }
    requires octets { Octets message.now }
    requires accepts { Accepts (indexed cells.now) depth_limit number message.now }
    ensures { result ≡ leb (length (shortest_within (indexed cells.now) depth_limit number message.now)) len }
{
    if message.len() <= len {
        return true;
    }
    measure(cells, number, reading::DEPTH_LIMIT, message) <= len
}
