// The lookup: finds the k-th or the last of the outermost fields of a message that have a tag.
ghost use Rattle.std.specs.Prelude.{◌≡◌, MatchOption};
ghost use Rattle.reading.specs.Refusals as refusals;
ghost use Rattle.table.specs.Entry.{kind_number};
ghost use Rattle.table_index.specs.internal.Cells.{indexed};
ghost use Rattle.message_calls.specs.Check.{check_under};
ghost use Rattle.message_calls.specs.Lookup.{refusal};
ghost use Rattle.message_calls.specs.Results.{kind_of_value, uint_of_value, int_of_value, field_numbers, found_numbers};
ghost use Rattle.message_calls.specs.internal.LookupUnder.{look_under};
ghost use Rattle.message_calls.specs.internal.Spans.{nth_span, last_span, chosen_span, uint_in, int_in, read};

use crate::index::Index;
use crate::{Field, Found, Value, traversal};
use message_field::Head;
use reading::{Fault, Refusal};
use table::Meaning;

// Which of the fields with a tag is wanted.
#[derive(Clone, Copy, Debug, PartialEq, Eq)]
pub(crate) enum Occurrence {
    Nth(u64),
    Last,
}

// Where the contents of a field start and end.
#[derive(Clone, Copy, Debug, PartialEq, Eq)]
struct Span {
    start: usize,
    end: usize,
}

// Returns the span of the k-th field with a tag. It skips each field as a whole, so it reads no field of a nested message. It does not ask
// the index for a tag's kind: a field's end does not depend on it, and a search for each field would take time.
// Kept: the loop steps by a field's length; an iterator over the fields would hold the same offset, and one function would become three.
fn nth(s: &[u8], tag: u64, k: u64) -> Option<Span>
    ensures { result ≡ nth_span tag k s.now }
{
    let mut i: usize = 0;
    let mut remaining = k;
    while let Some(Head { tag: t, start, end }) = message_field::field_at(s, i) {
        i = end;
        if t == tag {
            if remaining == 0 {
                return Some(Span { start, end });
            }
            remaining -= 1;
        }
    }
    None
}

// Returns the span of the last field with a tag.
// Kept: the loop steps by a field's length, as in `nth`.
fn last(s: &[u8], tag: u64) -> Option<Span>
    ensures { result ≡ last_span tag s.now }
{
    let mut i: usize = 0;
    let mut best = None;
    while let Some(
        Head {
            tag: seen,
            start: first,
            end: after,
        },
    ) = message_field::field_at(s, i)
    {
        i = after;
        if seen == tag {
            best = Some(Span {
                start: first,
                end: after,
            });
        }
    }
    best
}

// Returns the span of the wanted field with a tag.
fn pick(s: &[u8], tag: u64, which: Occurrence) -> Option<Span>
    ensures { result ≡ chosen_span tag which s.now }
{
    match which {
        Occurrence::Nth(k) => nth(s, tag, k),
        Occurrence::Last => last(s, tag),
    }
}

// The value of contents of a kind.
fn value(kind: Meaning, s: &[u8]) -> Value
    ensures kind_value { kind_of_value result ≡ kind_number kind }
    ensures uint_value { uint_of_value result ≡ uint_in (kind_number kind) s.now }
    ensures int_value { int_of_value result ≡ int_in (kind_number kind) s.now }
{
    match kind {
        Meaning::Raw => Value::Raw,
        Meaning::Uint => Value::Uint(octets_read::uint(s).value),
        Meaning::Int => Value::Int(octets_read::int(s).value),
        Meaning::String => Value::String,
        Meaning::Text => Value::Text,
        Meaning::Message(_) => Value::Message,
    }
}

// The field of a kind, by its contents and the offset where they start.
fn contents(kind: Meaning, start: usize, s: &[u8]) -> Field
    ensures { field_numbers result ≡ read (kind_number kind) start s.now }
{
    Field {
        value: value(kind, s),
        start,
        length: s.len(),
    }
}

// Returns the wanted field of a message that the check accepts.
fn wanted(index: &Index, number: u64, message: &[u8], tag: u64, which: Occurrence) -> Option<Field>
    requires { (check_under (indexed index.now.cells) number message.now).refusal ≡ 0 }
    ensures { MatchOption result (refusal refusals.absent 0 ≡ look_under (indexed index.now.cells) number message.now tag which) (λ f. field_numbers f ≡ look_under (indexed index.now.cells) number message.now tag which) }
{
    let Span { start, end } = pick(message, tag, which)?;
    let kind = table_index::find(&index.cells, number, tag);
    Some(contents(kind, start, &message[start..end]))
}

// A lookup under an index. It checks the whole message before it looks for a field, so it also rejects a message with a fault after the
// wanted field.
pub(crate) fn look(
    index: &Index,
    number: u64,
    message: &[u8],
    tag: u64,
    which: Occurrence,
) -> Result<Field, Fault>
    ensures { found_numbers result ≡ look_under (indexed index.now.cells) number message.now tag which }
{
    traversal::check(index, number, message)?;
    wanted(index, number, message, tag, which).ok_or(Refusal::Absent.at(0))
}

// The lookup's answer in numbers.
impl From<Result<Field, Fault>> for Found {
    ghost from_gives = { λ r answer. answer ≡ found_numbers r };

    fn from(looked: Result<Field, Fault>) -> Found {
        match looked {
            Ok(field) => {
                let (kind, value, signed) = match field.value {
                    Value::Raw => (0, 0, 0),
                    Value::Uint(v) => (1, v, 0),
                    Value::Int(v) => (2, 0, v),
                    Value::String => (3, 0, 0),
                    Value::Text => (4, 0, 0),
                    Value::Message => (5, 0, 0),
                };
                Found {
                    refusal: 0,
                    place: 0,
                    kind,
                    value,
                    signed,
                    start: field.start as u64,
                    length: field.length as u64,
                }
            }
            Err(fault) => Found {
                refusal: fault.refusal.number(),
                place: fault.place,
                kind: 0,
                value: 0,
                signed: 0,
                start: 0,
                length: 0,
            },
        }
    }
}
