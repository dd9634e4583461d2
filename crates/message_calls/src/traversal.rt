// The traversal of a message and of the messages nested in it, and the check that rests on it.
ghost use Rattle.std.specs.Prelude.{◌≡◌, true, false, List, ℕ, ◌+◌, ◌-◌, ◌≤◌, ◌<◌, max, ◌&&◌, length, get_or, MatchOption};
ghost use Rattle.std.specs.Int.Bits.{bit_and};
ghost use Rattle.reading.specs.Checks.{refusal};
ghost use Rattle.reading.specs.Reading.{message_limit, depth_limit};
ghost use Rattle.table_index.specs.internal.Cells.{meaning_of, indexed};
ghost use Rattle.message.specs.Reading.{message_from};
ghost use Rattle.message.specs.internal.Short.{short_contents, short_reading};
ghost use Rattle.message_field.specs.internal.Nexts.{in_numbers, next_by_kind, next_of, noted_tags, Passes, NoText, small_at, small_contents, small_cell};
ghost use Rattle.message_calls.specs.Check.{check_under};
ghost use Rattle.message_calls.specs.Short.{short_under};
ghost use Rattle.message_calls.specs.Results.{checked_numbers, shortest_of, checked_message};
ghost use Rattle.message_calls.specs.internal.Verdicts.{verdict as verdict-of, returned};
ghost use Rattle.message_calls.specs.internal.SmallFields.{Known};

use crate::index::Index;
use crate::{CheckedMessage, Summary};
use message_field::Next;
use reading::{Checked, Counts, Fault, Refusal};

// The cell of the field at an offset, if its control part is one octet and its contents end within the message.
fn small_cell(cells: &[u32; 128], number: u64, s: &[u8], i: usize) -> Option<u64>
    requires { length s.now ≤ message_limit }
    ensures { result ≡ small_cell cells.now number s.now i }
{
    if s.len() <= i {
        return None;
    }
    let c = s[i];
    let n = (c & 15) as usize;
    if 224 <= c || 12 <= n || s.len() < i + 1 + n {
        return None;
    }
    Some(table_index::cell(cells, number, (c >> 4) as u64))
}

// Returns true only if the contents of a field are allowed and in their shortest form. If it returns false, they may be so too. The field is
// neither text nor a message. Returns true for a field that is no number, a number without octets, a uint whose first octet is not 0, and an
// int whose second octet is above 80 (hex).
fn short_by_first_octets(code: u64, s: &[u8], a: usize, e: usize) -> bool
    requires { (code < 4) × (a ≤ e) × (e ≤ length s.now) }
    ensures passes { result ≡ true → Passes code a e s.now }
    ensures le_code { result ≡ false → (1 ≤ code) × (code ≤ 2) }
{
    let n = e - a;
    if code == 0 || code == 3 || n == 0 {
        return true;
    }
    if 8 < n {
        return false;
    }
    if code == 1 {
        return s[a] != 0;
    }
    2 <= n && 128 < s[a + 1]
}

// Returns the end of a field whose control part is one octet, by the code of its kind, if it is no message and its contents are allowed and in
// their shortest form. Most fields are such. If it returns none, the caller calls `next`. A number whose first octet has a bit of its
// magnitude needs that octet. A field without contents has no first octet: the test then looks at the control octet, and either outcome is
// right. The compiler chooses `first` without a jump. A jump that depends on the length would often be predicted wrongly.
fn quick(code: u64, s: &[u8], i: usize) -> Option<usize>
    requires { small_at s.now i ≡ true }
    ensures { MatchOption result (NoText code s.now i × (code < 4 → (1 ≤ code) × (code ≤ 2))) (λ e. (code ≤ 4) × (e ≡ i + 1 + bit_and (get_or s.now i 0) 15) × Passes code (i + 1) e s.now) }
{
    if 4 <= code {
        if code == 4 {
            let a = i + 1;
            let e = a + ((s[i] & 15) as usize);
            if octets_text::text(&s[a..e]) {
                return Some(e);
            }
        }
        return None;
    }
    let n = (s[i] & 15) as usize;
    let a = i + 1;
    let e = a + n;
    let first = if n == 0 { i } else { a };
    if n <= 8 && s[first] & 127 != 0 {
        return Some(e);
    }
    if short_by_first_octets(code, s, a, e) {
        return Some(e);
    }
    None
}

// The step at a field whose control part is one octet and that `quick` does not pass, by the code of its kind. The single tags noted in `seen`
// are those of the fields before and that of the field here. A message is entered without reading its control octet again; text that `quick`
// does not pass is a fault; and a number is read.
fn next(nested: u64, seen: u64, code: u64, s: &[u8], i: usize) -> Next
    requires small { small_at s.now i ≡ true }
    requires no_text { NoText code s.now i × (code < 4 → (1 ≤ code) × (code ≤ 2)) }
    ensures { in_numbers result ≡ next_by_kind nested (meaning_of code) (i + 1) (short_contents (meaning_of code) (small_contents s.now i)) seen (small_contents s.now i) }
{
    let a = i + 1;
    let e = a + ((s[i] & 15) as usize);
    if code == 4 {
        return Next::Fault(Refusal::Text);
    }
    if code < 4 {
        if 8 < e - a {
            return Next::Fault(Refusal::NumberTooWide);
        }
        return Next::Over(e, message_field::shortest_number(code, &s[a..e]), seen);
    }
    if nested == 0 {
        return Next::Fault(Refusal::TooDeep);
    }
    Next::Into(code - 5, a, e, true, seen)
}

// What a look at the control octet and the first octets of a field finds: it is passed, with its end and the mask of the single tags after it; it is
// left to `next`, with the code of its kind and that mask; it repeats the single tag of this cell; or its control part is no single octet.
#[derive(Clone, Copy, Debug, PartialEq, Eq)]
enum Look {
    Passed(usize, u64),
    Left(u64, u64),
    Repeated(u64),
    Wide,
}

// Looks at the field at an offset.
fn look_at(cells: &[u32; 128], number: u64, seen: u64, s: &[u8], i: usize) -> Look
    requires { length s.now ≤ message_limit }
    ensures { Known cells.now number seen s.now i result }
{
    let Some(cell) = small_cell(cells, number, s, i) else {
        return Look::Wide;
    };
    let Some(mask) = message_field::note(seen, cell) else {
        return Look::Repeated(cell);
    };
    let code = table_index::code(cell);
    match quick(code, s, i) {
        Some(end) => Look::Passed(end, mask),
        None => Look::Left(code, mask),
    }
}

// The step at an offset, by what `look_at` finds there. `message_field::step` does the same for any field, but takes longer.
fn step(
    cells: &[u32; 128],
    nested: u64,
    number: u64,
    seen: u64,
    found: Look,
    s: &[u8],
    i: usize,
) -> Next
    requires { Known cells.now number seen s.now i found }
    ensures { in_numbers result ≡ next_of cells.now nested number (noted_tags cells.now number seen) seen s.now i }
{
    match found {
        Look::Passed(end, mask) => Next::Over(end, true, mask),
        Look::Left(code, mask) => next(nested, mask, code, s, i),
        Look::Repeated(cell) => Next::Fault(message_field::repeat_fault(nested, cell)),
        Look::Wide => message_field::step(cells, nested, number, seen, s, i),
    }
}

// What is found of a message before its first field.
const NOTHING: Summary = Summary {
    counts: Counts {
        fields: 0,
        depth: 1,
    },
    shortest: true,
};

// What is found so far and at a field after it: how many fields that one adds, how many messages deep it is, and whether it is in its shortest
// form.
fn with_field(so_far: Summary, fields: u64, depth: u64, shortest: bool) -> Summary
    requires { so_far.counts.fields + fields ≤ message_limit }
    ensures { result ≡ record { counts = record { fields = so_far.counts.fields + fields; depth = max so_far.counts.depth depth }; shortest = so_far.shortest && shortest } }
{
    Summary {
        counts: Counts {
            fields: so_far.counts.fields + fields,
            depth: so_far.counts.depth.max(depth),
        },
        shortest: so_far.shortest & shortest,
    }
}

// Reads a message of number `n` whose octets start at the place `at`. Returns the first refusal, or what it finds of the message. `levels` is how
// many messages deep it may be, itself counted; a nested message has one less.
// Kept: the loop steps by a field's length, and the next step depends on the mask that the last one left.
fn traverse(index: &Index, n: u64, levels: u64, at: u64, s: &[u8]) -> Result<Summary, Fault>
    requires s_bound { at + length s.now ≤ message_limit }
    requires le_levels { (1 ≤ levels) × (levels ≤ depth_limit) }
    ensures verdict_value { returned result ≡ verdict-of (message_from (indexed index.now.cells) levels n 0 at s.now) }
    ensures shortest_value { shortest_of result ≡ short_reading (indexed index.now.cells) n (message_from (indexed index.now.cells) levels n 0 at s.now) }
{
    let mut i: usize = 0;
    let mut seen: u64 = 0;
    let mut found = NOTHING;
    loop {
        let here = look_at(&index.cells, n, seen, s, i);
        if let Look::Passed(end, after) = here {
            found = with_field(found, 1, 0, true);
            seen = after;
            i = end;
            continue;
        }
        match step(&index.cells, levels - 1, n, seen, here, s, i) {
            Next::Done => return Ok(found),
            Next::Fault(refusal) => return Err(refusal.at(at + (i as u64))),
            Next::Over(e, short, mask) => {
                found = with_field(found, 1, 0, short);
                seen = mask;
                i = e;
            }
            Next::Into(m, a, e, short, mask) => {
                let inner = traverse(index, m, levels - 1, at + (a as u64), &s[a..e])?;
                let Counts { fields, depth } = inner.counts;
                found = with_field(found, 1 + fields, depth + 1, short & inner.shortest);
                seen = mask;
                i = e;
            }
        }
    }
}

// The check under an index.
pub(crate) fn check(index: &Index, number: u64, message: &[u8]) -> Result<Summary, Fault>
    ensures checked_value { checked_numbers result ≡ check_under (indexed index.now.cells) number message.now }
    ensures shortest_value { shortest_of result ≡ short_under (indexed index.now.cells) number message.now }
{
    crate::fits(message)?;
    if reading::LAST_NUMBER < number {
        return Err(Refusal::Table.at(0));
    }
    traverse(index, number, reading::DEPTH_LIMIT, 0, message)
}

// Returns the check in numbers of a message that is rejected, by the number of the refusal and its place.
fn refused(reason: u64, place: u64) -> CheckedMessage
    ensures checked_value { result.checked ≡ refusal reason place }
    ensures shortest_value { result.shortest ≡ false }
{
    CheckedMessage {
        checked: reading::refused(reason, place),
        shortest: false,
    }
}

// The check in numbers.
impl From<Result<Summary, Fault>> for CheckedMessage {
    ghost from_gives = { λ r answer. answer ≡ checked_message r };

    fn from(read: Result<Summary, Fault>) -> CheckedMessage {
        match read {
            Ok(summary) => CheckedMessage {
                checked: Checked {
                    refusal: 0,
                    place: 0,
                    fields: summary.counts.fields,
                    depth: summary.counts.depth,
                },
                shortest: summary.shortest,
            },
            Err(fault) => refused(fault.refusal.number(), fault.place),
        }
    }
}
