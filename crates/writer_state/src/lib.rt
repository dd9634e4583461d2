// The state of the backward writer, which fills a lent buffer from its end towards its start. This file tests states, looks up tags, and
// starts and finishes a message.
#![tactic(auto)]

pub mod by_octets;

ghost use Rattle.std.specs.Prelude.{◌≡◌, length as length-of, get_or, nat_le};
ghost use Rattle.std.specs.List.{list_all};
ghost use Rattle.table.specs.Entry.{kind_number, inner_of};
ghost use Rattle.table_index.specs.internal.Cells.{cell_for, noted_in, note_in};
ghost use Rattle.writer_state.specs.Sound.{falling, sound as sound-of};
ghost use Rattle.writer_state.specs.ByOctets.{usable as usable-of};
ghost use Rattle.writer_state.specs.Calls.{level, mask as mask-of, of_octets, started, begun, finish_refusal, finished};
ghost use Rattle.writer_state.specs.Results.{written, finish_answer};
ghost use Rattle.writer_state.specs.internal.Found.{found_under, found_answer};
ghost use Rattle.writer_state.specs.internal.Starts.{begins, refusal_number};
ghost use Rattle.writer_state.specs.internal.Tags.{wanted_number, fits as fits-of, cell_kind, tag_answer};

use reading::{Fault, Refusal};
use table::{Meaning, Table};

// The writer's state: the length of the buffer, the offset at which the octets stored so far start, the number of open message fields, and
// the revision of the start. Each level has a message number and a mask, which notes the single fields that its message has by their order in
// the table; each open field has a mark, the offset at which its contents end, and a tag.
// Kept: the theorems of demand 2 speak of these parts, and the C functions keep them in this order in their array of numbers.
#[derive(Clone, Copy, PartialEq, Eq)]
pub struct State {
    pub length: usize,
    pub start: usize,
    pub opened: usize,
    pub revision: u64,
    pub numbers: [u64; 8],
    pub masks: [u64; 8],
    pub marks: [usize; 7],
    pub tags: [u16; 7],
}

// What start, put, open and close answer in numbers, as the C functions return it: the refusal (0 if the call is accepted), the place (0 except
// for a faulty record in the octets of a table) and the state after the call.
#[derive(Clone, Copy)]
pub struct Written {
    pub refusal: u64,
    pub place: u64,
    pub state: State,
}

impl Written {
    // Returns the answer in numbers. A refused call leaves the state that it was given.
    pub fn of(given: State, answer: Result<State, Fault>) -> Written
        ensures { result ≡ written given answer }
    {
        match answer {
            Ok(after) => Written {
                refusal: 0,
                place: 0,
                state: after,
            },
            Err(fault) => Written {
                refusal: fault.refusal.number(),
                place: fault.place,
                state: given,
            },
        }
    }
}

// What a call stores: a uint, an int, the octets of a string or of a text, or a message. A kind can also be given by its number, 3 for a string or
// a text. A number that no kind has fits no field.
#[derive(Clone, Copy)]
pub enum Wanted {
    Uint,
    Int,
    Octets,
    Message,
    Number(u64),
}

// A tag looked up in the innermost open message: its kind, and the mask of the message with the tag noted.
#[derive(Clone, Copy)]
pub struct Tagged {
    pub kind: Meaning,
    pub mask: u64,
}

// Returns whether the marks lie between `low` and `high` and none is above the one before it.
fn marks_fall(marks: &[usize], low: usize, high: usize) -> bool
    ensures { result ≡ falling low high marks.now }
{
    let mut top = high;
    for m in marks {
        if *m < low || top < *m {
            return false;
        }
        top = *m;
    }
    true
}

// Returns whether the message numbers are allowed.
fn numbers_small(numbers: &[u64]) -> bool
    ensures { result ≡ list_all (λ n. nat_le n 15) numbers.now }
{
    numbers.iter().all(|n| *n <= reading::LAST_NUMBER)
}

// Returns whether a state is sound. The caller keeps the state between calls and may change it, so each call tests it. With seven fields
// open the innermost message is at the depth limit.
#[tactic(auto, using(crate::proofs::Levels::all_small), unfolding(crate::specs::Sound::sound))]
pub fn sound(s: State) -> bool
    ensures { result ≡ sound-of s }
{
    let n = s.opened;
    s.length <= reading::MESSAGE_LIMIT
        && s.start <= s.length
        && n <= 7
        && table_index::is_revision(s.revision)
        && marks_fall(&s.marks[..n], s.start, s.length)
        && numbers_small(&s.numbers[..n + 1])
}

// Returns whether a call with a buffer of `len` octets can use a state: the state is sound, and start got a buffer of this length.
#[tactic(auto, unfolding(crate::specs::ByOctets::usable))]
pub fn usable(s: State, len: usize) -> bool
    ensures { result ≡ usable-of s len }
{
    len == s.length && sound(s)
}

// Returns the number at an index, or 0 if there are fewer numbers.
fn number_at(numbers: &[u64], i: usize) -> u64
    ensures { result ≡ get_or numbers.now i 0 }
{
    numbers.get(i).copied().unwrap_or(0)
}

// Returns whether a mask notes the tag of a cell already. Only single tags are noted.
#[tactic(auto, unfolding(table_index::specs::internal::Cells::noted_in, table_index::specs::internal::Cells::order_in))]
fn noted(mask: u64, cell: u64) -> bool
    ensures { result ≡ noted_in mask cell }
{
    table_index::single(cell) && table_index::has_bit(mask, table_index::order(cell))
}

// Returns a mask that also notes the tag of a cell, if the tag is single.
#[tactic(auto, unfolding(table_index::specs::internal::Cells::note_in, table_index::specs::internal::Cells::order_in))]
fn note(mask: u64, cell: u64) -> u64
    ensures { result ≡ note_in mask cell }
{
    if table_index::single(cell) {
        table_index::with_bit(mask, table_index::order(cell))
    } else {
        mask
    }
}

// Returns whether the values of a kind are octets.
#[tactic(auto, using(crate::proofs::TagKinds::other_octets), unfolding(crate::specs::Calls::of_octets, table::specs::Entry::kind_number))]
fn of_octets(kind: Meaning) -> bool
    ensures { result ≡ of_octets (kind_number kind) }
{
    matches!(kind, Meaning::String | Meaning::Text)
}

// Returns whether a call that stores one kind of value accepts a kind of field.
#[tactic(auto, using(crate::proofs::TagKinds::other_uint, crate::proofs::TagKinds::other_int, crate::proofs::TagKinds::other_message), unfolding(crate::specs::internal::Tags::fits, crate::specs::Calls::of_octets, table::specs::Entry::kind_number))]
fn fits(wanted: Wanted, kind: Meaning) -> bool
    ensures { result ≡ fits-of (wanted_number wanted) (kind_number kind) }
{
    match wanted {
        Wanted::Uint => matches!(kind, Meaning::Uint),
        Wanted::Int => matches!(kind, Meaning::Int),
        Wanted::Octets => of_octets(kind),
        Wanted::Message => matches!(kind, Meaning::Message(_)),
        Wanted::Number(3) => of_octets(kind),
        Wanted::Number(n) => table_index::kind_number(kind) == n,
    }
}

// Returns the message number of a field's contents, 0 if the field is no message.
#[tactic(auto, using(crate::proofs::TagKinds::inner_none), unfolding(table::specs::Entry::inner_of))]
pub fn inner(kind: Meaning) -> u64
    ensures { result ≡ inner_of kind }
{
    match kind {
        Meaning::Message(m) => m,
        _ => 0,
    }
}

// Returns what the cell of a tag tells a call that wants a kind, in a message with a mask. Refusals: TagOrKind, Repeated.
#[tactic(auto, unfolding(crate::specs::internal::Tags::cell_kind, crate::specs::internal::Tags::or_known, crate::specs::Calls::or_refuse))]
fn cell_kind(cell: u64, mask: u64, wanted: Wanted) -> Result<Tagged, Refusal>
    ensures { tag_answer result ≡ cell_kind cell mask (wanted_number wanted) }
{
    let kind = table_index::meaning(cell);
    if !fits(wanted, kind) {
        return Err(Refusal::TagOrKind);
    }
    if noted(mask, cell) {
        return Err(Refusal::Repeated);
    }
    Ok(Tagged {
        kind,
        mask: note(mask, cell),
    })
}

// Looks up a tag in the innermost open message of a state, under the index of a table, for a call that wants a kind.
#[tactic(auto, unfolding(crate::specs::Calls::level, crate::specs::Calls::mask))]
fn tag_under(cells: &[u32; 128], s: State, tag: u64, wanted: Wanted) -> Result<Tagged, Fault>
    ensures { found_answer result ≡ record { place = 0; tagged = cell_kind (cell_for cells.now (level s) tag) (mask-of s) (wanted_number wanted) } }
{
    let cell = table_index::cell(cells, number_at(&s.numbers, s.opened), tag);
    cell_kind(cell, number_at(&s.masks, s.opened), wanted).map_err(|refusal| refusal.at(0))
}

// Looks up a tag in the innermost open message, for a call that wants a kind. One pass over the table's words tests the table and indexes
// it under the revision of the state. Refusals, all at place 0: State, Table, TagOrKind, Repeated.
pub fn tag_kind(t: Table, s: State, len: usize, tag: u64, wanted: Wanted) -> Result<Tagged, Fault>
    ensures { found_answer result ≡ found_under t s len tag (wanted_number wanted) }
{
    if !usable(s, len) {
        return Err(Refusal::State.at(0));
    }
    let mut cells = [0u32; 128];
    if !table_index::index_table(&t.words, t.count, s.revision, &mut cells) {
        return Err(Refusal::Table.at(0));
    }
    tag_under(&cells, s, tag, wanted)
}

// Returns the state for a buffer of `len` octets in which nothing is stored, with no field open and nothing noted.
#[tactic(auto, unfolding(crate::specs::Calls::begun))]
fn fresh(len: usize, revision: u64, number: u64) -> State
    ensures { result ≡ begun len revision number }
{
    let mut numbers = [0; 8];
    numbers[0] = number;
    State {
        length: len,
        start: len,
        opened: 0,
        revision,
        numbers,
        masks: [0; 8],
        marks: [0; 7],
        tags: [0; 7],
    }
}

// Returns the state of zeros, which is not sound. A refused start leaves it.
pub fn zeros() -> State
    ensures { result ≡ begun 0 0 0 }
{
    fresh(0, 0, 0)
}

// Starts a message under a table that is not faulty, in a buffer within the limit. Refusals: Table for the revision and the number.
#[tactic(auto, unfolding(crate::specs::internal::Starts::begins, crate::specs::Calls::call_result, crate::specs::Calls::or_refuse))]
fn begin(len: usize, revision: u64, number: u64) -> Result<State, Fault>
    ensures { written (begun 0 0 0) result ≡ begins len revision number }
{
    if !table_index::is_revision(revision) || reading::LAST_NUMBER < number {
        return Err(Refusal::Table.at(0));
    }
    Ok(fresh(len, revision, number))
}

// Starts a message with a number at the end of a lent buffer, under a revision of the profile. Refusals, all at place 0: TooLong for a buffer
// over the limit, Table.
#[tactic(auto, unfolding(crate::specs::Calls::started, crate::specs::Calls::start_refusal, crate::specs::Calls::call_result, crate::specs::Calls::or_refuse, crate::specs::internal::Starts::begins))]
pub fn start(t: Table, revision: u64, number: u64, out: &[u8]) -> Result<State, Fault>
    ensures { written (begun 0 0 0) result ≡ started t revision number (length-of out.now) }
{
    if reading::MESSAGE_LIMIT < out.len() {
        return Err(Refusal::TooLong.at(0));
    }
    if !table_index::valid(t) {
        return Err(Refusal::Table.at(0));
    }
    begin(out.len(), revision, number)
}

// Tests whether a message can be finished. Refusals: State, StillOpen.
#[tactic(auto, unfolding(crate::specs::Calls::finish_refusal, crate::specs::Calls::or_refuse))]
fn finish_refusal(s: State) -> Result<(), Refusal>
    ensures { refusal_number result ≡ finish_refusal s }
{
    if !sound(s) {
        return Err(Refusal::State);
    }
    if s.opened != 0 {
        return Err(Refusal::StillOpen);
    }
    Ok(())
}

// Finishes a message: returns the offset at which it starts. Refusals, all at place 0: State, StillOpen.
#[tactic(auto, unfolding(crate::specs::Calls::finished))]
pub fn finish(s: State) -> Result<usize, Fault>
    ensures { finish_answer s result ≡ finished s }
{
    finish_refusal(s).map_err(|refusal| refusal.at(0))?;
    Ok(s.start)
}
