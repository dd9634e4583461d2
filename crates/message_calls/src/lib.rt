// The calls that read a message: the check, the shortener and the lookup of a field. Each comes twice: one takes the octets of a field
// table, the other a table that was loaded. Both take the revision of the profile that the table is read under. A message that is too long is
// rejected before the table is read, and a faulty table before the revision and the message number are tested.
#![tactic(auto)]

mod index;
mod outermost;
mod shortest;
mod sizes;
mod traversal;

ghost use Rattle.std.specs.Prelude.{◌≡◌, ◌≤◌, ◌<◌, length, MatchResult};
ghost use Rattle.reading.specs.Reading.{message_limit};
ghost use Rattle.reading.specs.declared.Refusal.TheVariants.{TooLong};
ghost use Rattle.message_calls.specs.Check.{check as check-of};
ghost use Rattle.message_calls.specs.Lookup.{lookup as lookup-of, lookup_last};
ghost use Rattle.message_calls.specs.Short.{short};
ghost use Rattle.message_calls.specs.Shorten.{answer, buffer};
ghost use Rattle.message_calls.specs.Results.{checked_numbers, shortest_of, shortened_numbers, found_numbers};
ghost use Rattle.message_calls.specs.Calls.{check_octets, short_octets, shorten_octets, shorten_buffer, lookup_octets, lookup_last_octets};

use index::Index;
use outermost::Occurrence;
use reading::{Checked, Counts, Fault, Refusal};
use table::Table;

// What the check finds of a message that it accepts: the count of its fields and its depth, and whether it is in its shortest form, so that the
// shortener would return the same octets.
#[derive(Clone, Copy, Debug, PartialEq, Eq)]
pub struct Summary {
    pub counts: Counts,
    pub shortest: bool,
}

// The value of a field by its kind. The contents of a string, a text, a message and a raw field stay where they are.
#[derive(Clone, Copy, Debug, PartialEq, Eq)]
pub enum Value {
    Raw,
    Uint(u64),
    Int(i64),
    String,
    Text,
    Message,
}

// A field that a lookup finds: its value, and where its contents start in the lent buffer and how long they are.
#[derive(Clone, Copy, Debug, PartialEq, Eq)]
pub struct Field {
    pub value: Value,
    pub start: usize,
    pub length: usize,
}

// The check in numbers, as the C functions return it: the answer, and whether the message is in its shortest form. A message that is rejected
// is not.
#[derive(Clone, Copy)]
pub struct CheckedMessage {
    pub checked: Checked,
    pub shortest: bool,
}

// The shortener's answer in numbers: a refusal number (0 if the message was shortened), the place of the fault, and the length written.
#[derive(Clone, Copy, Debug, PartialEq, Eq)]
pub struct Shortened {
    pub refusal: u64,
    pub place: u64,
    pub length: u64,
}

// The lookup's answer in numbers: a refusal number (0 if a field was found) and the place of the fault; of the field found its kind, the value
// of a uint, the value of an int, and where its contents start in the lent buffer and how long they are.
#[derive(Clone, Copy, Debug, PartialEq, Eq)]
pub struct Found {
    pub refusal: u64,
    pub place: u64,
    pub kind: u64,
    pub value: u64,
    pub signed: i64,
    pub start: u64,
    pub length: u64,
}

// Rejects a message over the length limit.
fn fits(message: &[u8]) -> Result<(), Fault>
    ensures { MatchResult result (λ _. length message.now ≤ message_limit) (λ f. (message_limit < length message.now) × (f ≡ record { refusal = TooLong; place = 0 })) }
{
    if reading::MESSAGE_LIMIT < message.len() {
        return Err(Refusal::TooLong.at(0));
    }
    Ok(())
}

// Checks a message: returns the count of its fields, its depth and whether it is in its shortest form, or the first refusal.
pub fn check(table: &[u8], revision: u64, number: u64, message: &[u8]) -> Result<Summary, Fault>
    ensures checked_value { checked_numbers result ≡ check_octets table.now revision number message.now }
    ensures shortest_value { shortest_of result ≡ short_octets table.now revision number message.now }
{
    fits(message)?;
    let mut index = Index::empty();
    index.fill_octets(table, revision)?;
    traversal::check(&index, number, message)
}

// Writes the shortest octets that read the same as a message to the front of `out`, and returns their length.
pub fn shorten(
    table: &[u8],
    revision: u64,
    number: u64,
    message: &[u8],
    out: &mut [u8],
) -> Result<usize, Fault>
    ensures value { shortened_numbers result ≡ shorten_octets table.now revision number message.now out.old }
    ensures out_after { out.new ≡ shorten_buffer table.now revision number message.now out.old }
{
    fits(message)?;
    let mut index = Index::empty();
    index.fill_octets(table, revision)?;
    shortest::shorten(&index, number, message, out)
}

// Returns the k-th, from 0, of the outermost fields with a tag.
pub fn lookup(
    table: &[u8],
    revision: u64,
    number: u64,
    message: &[u8],
    tag: u64,
    k: u64,
) -> Result<Field, Fault>
    ensures { found_numbers result ≡ lookup_octets table.now revision number message.now tag k }
{
    fits(message)?;
    let mut index = Index::empty();
    index.fill_octets(table, revision)?;
    outermost::look(&index, number, message, tag, Occurrence::Nth(k))
}

// Returns the last of the outermost fields with a tag.
pub fn lookup_last(
    table: &[u8],
    revision: u64,
    number: u64,
    message: &[u8],
    tag: u64,
) -> Result<Field, Fault>
    ensures { found_numbers result ≡ lookup_last_octets table.now revision number message.now tag }
{
    fits(message)?;
    let mut index = Index::empty();
    index.fill_octets(table, revision)?;
    outermost::look(&index, number, message, tag, Occurrence::Last)
}

// The same calls under a table that was loaded. A table that the loader cannot return is rejected before the message is read.
pub fn check_loaded(t: Table, revision: u64, number: u64, message: &[u8]) -> Result<Summary, Fault>
    ensures checked_value { checked_numbers result ≡ check-of t revision number message.now }
    ensures shortest_value { shortest_of result ≡ short t revision number message.now }
{
    fits(message)?;
    let mut loaded = Index::empty();
    loaded.fill_table(&t, revision)?;
    traversal::check(&loaded, number, message)
}

pub fn shorten_loaded(
    t: Table,
    revision: u64,
    number: u64,
    message: &[u8],
    out: &mut [u8],
) -> Result<usize, Fault>
    ensures value { shortened_numbers result ≡ answer t revision number message.now out.old }
    ensures out_after { out.new ≡ buffer t revision number message.now out.old }
{
    fits(message)?;
    let mut loaded = Index::empty();
    loaded.fill_table(&t, revision)?;
    shortest::shorten(&loaded, number, message, out)
}

pub fn lookup_loaded(
    t: Table,
    revision: u64,
    number: u64,
    message: &[u8],
    tag: u64,
    k: u64,
) -> Result<Field, Fault>
    ensures { found_numbers result ≡ lookup-of t revision number message.now tag k }
{
    fits(message)?;
    let mut loaded = Index::empty();
    loaded.fill_table(&t, revision)?;
    outermost::look(&loaded, number, message, tag, Occurrence::Nth(k))
}

pub fn lookup_last_loaded(
    t: Table,
    revision: u64,
    number: u64,
    message: &[u8],
    tag: u64,
) -> Result<Field, Fault>
    ensures { found_numbers result ≡ lookup_last t revision number message.now tag }
{
    fits(message)?;
    let mut loaded = Index::empty();
    loaded.fill_table(&t, revision)?;
    outermost::look(&loaded, number, message, tag, Occurrence::Last)
}
