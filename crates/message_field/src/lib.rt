// Reads the field at an offset of a message: its head, or the step over it or into it.
#![tactic(auto)]

ghost use Rattle.std.specs.Prelude.{◌≡◌, true, cond, ◌&&◌, List, ℕ, ◌-◌, ◌≤◌, ◌<◌, length, take, drop, MatchOption};
ghost use Rattle.reading.specs.Refusals.{number as number-of};
ghost use Rattle.reading.specs.Refusals as refusals;
ghost use Rattle.message.specs.Reading.{too_deep};
ghost use Rattle.message.specs.internal.Short.{short_contents};
ghost use Rattle.message_field.specs.internal.Heads.{Field, head_of, head_at, Fieldless};
ghost use Rattle.message_field.specs.internal.Nexts.{in_numbers, short_number, next_by_kind, next_of, noted_tags, noted_of};
ghost use Rattle.table_index.specs.internal.Cells.{meaning_of, meaning_in};

use octets::Control;
use reading::Refusal;

// The head of a field: its tag and the span of its contents.
#[derive(Clone, Copy, Debug, PartialEq, Eq)]
pub struct Head {
    pub tag: u64,
    pub start: usize,
    pub end: usize,
}

// What a message has at an offset: its end; a fault with a refusal; a field that is no message, with the offset after it; a field that is a
// message, with its message number and the span of its contents. Each field comes with whether it is in its shortest form; of a field that
// is a message this is said of the control part alone. The last part is the mask of the single tags noted so far, with that of the field.
#[derive(Clone, Copy, Debug, PartialEq, Eq)]
pub enum Next {
    Done,
    Fault(Refusal),
    Over(usize, bool, u64),
    Into(u64, usize, usize, bool, u64),
}

// Returns whether octets are the shortest form of a uint, for code 1, or of an int, for any other code. Most numbers have a first octet with a
// bit of the magnitude, so they need it: these are not read.
pub fn shortest_number(code: u64, s: &[u8]) -> bool
    ensures { result ≡ short_number code s.now }
{
    if s.len() == 0 {
        return true;
    }
    if s.len() <= 8 && s[0] & 127 != 0 {
        return true;
    }
    if code == 1 {
        return octets_read::uint(s).shortest;
    }
    octets_read::int(s).shortest
}

// The step at a whole field that repeats no single one, by the code of its tag's kind, the span of its contents, and whether its control part is
// in its shortest form. Comparing the code takes less time than a match on the kind, which the compiler makes a jump table.
fn by_any_code(code: u64, nested: u64, s: &[u8], a: usize, e: usize, short: bool, seen: u64) -> Next
    requires { (a ≤ e) × (e ≤ length s.now) }
    ensures { in_numbers result ≡ next_by_kind nested (meaning_of code) a (short && short_contents (meaning_of code) (take (e - a) (drop a s.now))) seen (take (e - a) (drop a s.now)) }
{
    if 4 < code {
        if nested == 0 {
            return Next::Fault(Refusal::TooDeep);
        }
        return Next::Into(code - 5, a, e, short, seen);
    }
    if code == 4 {
        if octets_text::text(&s[a..e]) {
            return Next::Over(e, short, seen);
        }
        return Next::Fault(Refusal::Text);
    }
    if code == 1 || code == 2 {
        if 8 < e - a {
            return Next::Fault(Refusal::NumberTooWide);
        }
        return Next::Over(e, short && shortest_number(code, &s[a..e]), seen);
    }
    Next::Over(e, short, seen)
}

// Returns true only if contents of at most eight octets need their first octet: it has a bit of the magnitude. Contents that are a number are then in
// their shortest form.
fn needs_first_octet(s: &[u8], a: usize, e: usize) -> bool
    requires { (a ≤ e) × (e ≤ length s.now) × (e - a ≤ 8) }
    ensures { (code : ℕ) → code < 4 → result ≡ true → short_contents (meaning_of code) (take (e - a) (drop a s.now)) ≡ true }
{
    if e <= a {
        return false;
    }
    s[a] & 127 != 0
}

// The same step. Most fields are neither text nor a message and pass by a look at their first octet, so that is tested first.
fn by_code(code: u64, nested: u64, s: &[u8], a: usize, e: usize, short: bool, seen: u64) -> Next
    requires { (a ≤ e) × (e ≤ length s.now) }
    ensures { in_numbers result ≡ next_by_kind nested (meaning_of code) a (short && short_contents (meaning_of code) (take (e - a) (drop a s.now))) seen (take (e - a) (drop a s.now)) }
{
    if code < 4 {
        if e - a <= 8 {
            if needs_first_octet(s, a, e) {
                return Next::Over(e, short, seen);
            }
        }
    }
    by_any_code(code, nested, s, a, e, short, seen)
}

// Notes the tag of a cell in the mask of the single tags of the fields before: returns the mask after it, none if the field repeats one of them.
pub fn note(seen: u64, cell: u64) -> Option<u64>
    ensures { result ≡ noted_of seen cell }
{
    if !table_index::single(cell) {
        return Some(seen);
    }
    let order = table_index::order(cell);
    if table_index::has_bit(seen, order) {
        return None;
    }
    Some(table_index::with_bit(seen, order))
}

// The refusal of a field that repeats a single one: if it is also too deep, that comes first.
pub fn repeat_fault(nested: u64, cell: u64) -> Refusal
    ensures { number-of result ≡ cond (too_deep nested (meaning_in cell)) refusals.too_deep refusals.repeated }
{
    if nested == 0 && 4 < table_index::code(cell) {
        return Refusal::TooDeep;
    }
    Refusal::Repeated
}

// The step at an offset of a message, under the index of a table. `nested` is how many messages deep a message in it may be. `seen` is the mask of
// the single tags of the fields before. The announced length is compared with the count of octets after the control part, because
// adding a place to that length could overflow.
pub fn step(cells: &[u32; 128], nested: u64, number: u64, seen: u64, s: &[u8], i: usize) -> Next
    ensures { in_numbers result ≡ next_of cells.now nested number (noted_tags cells.now number seen) seen s.now i }
{
    let read = octets_read::control_at(s, i);
    let part = read.control;
    match part {
        Control::Absent => Next::Done,
        Control::Partial => Next::Fault(Refusal::Cut),
        Control::Whole { tag, length, size } => {
            let start = i + (size as usize);
            let remaining = (s.len() - start) as u64;
            if remaining < length {
                return Next::Fault(Refusal::PastTheEnd);
            }
            let end = start + (length as usize);
            let cell = table_index::cell(cells, number, tag);
            let Some(after) = note(seen, cell) else {
                return Next::Fault(repeat_fault(nested, cell));
            };
            by_code(
                table_index::code(cell),
                nested,
                s,
                start,
                end,
                read.shortest,
                after,
            )
        }
    }
}

// Returns the head of the field at the offset i of the message that ends at the offset `end` of s, none if the message ends at i. `step` does not call this function but
// reads the control part itself: this function has other callers, so the compiler does not inline it, and the check then takes up to 1.6
// times as long.
pub fn head_at(s: &[u8], i: usize, end: usize) -> Result<Option<Head>, Refusal>
    ensures { head_of result ≡ head_at i (drop i (take end s.now)) }
{
    let stop = end.min(s.len());
    if stop <= i {
        return Ok(None);
    }
    let part = octets_read::control(&s[i..stop]).control;
    match part {
        Control::Absent => Ok(None),
        Control::Partial => Err(Refusal::Cut),
        Control::Whole { tag, length, size } => {
            let start = i + (size as usize);
            let rest = (stop - start) as u64;
            if rest < length {
                return Err(Refusal::PastTheEnd);
            }
            Ok(Some(Head {
                tag,
                start,
                end: start + (length as usize),
            }))
        }
    }
}

// Returns the head of the field at the offset i of a message, none if there is no field, whatever the reason.
pub fn field_at(s: &[u8], i: usize) -> Option<Head>
    ensures { MatchOption result (Fieldless (head_at i (drop i s.now))) (λ h. head_at i (drop i s.now) ≡ Field h.tag h.start h.end) }
{
    head_at(s, i, s.len()).unwrap_or(None)
}
