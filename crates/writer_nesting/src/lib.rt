// Opening and closing the message fields of the backward writer.
#![tactic(auto)]

pub mod by_octets;

ghost use Rattle.std.specs.Prelude.{◌≡◌, true, ◌-◌, ◌≤◌, ◌<◌, MatchResult, [], length as length-of, get_or};
ghost use Rattle.table.specs.Entry.{inner_of};
ghost use Rattle.writer_nesting.specs.internal.Nesting.{open_known, closed, closed_buffer};
ghost use Rattle.writer_state.specs.Call.{open_field, close_field};
ghost use Rattle.writer_state.specs.Answer.{answer, buffer};
ghost use Rattle.writer_state.specs.ByOctets.{usable};
ghost use Rattle.writer_state.specs.Calls.{masked, deeper as deeper-of};
ghost use Rattle.writer_state.specs.Results.{written};

use reading::{Fault, Refusal};
use table::Table;
use writer_state::{State, Tagged, Wanted};

// Returns the state one level deeper: a field with a tag and a message number is open, and the message around it has the mask `mask`. Nothing is
// noted in the new message.
fn deeper(s: State, tag: u16, number: u64, mask: u64) -> State
    requires { s.opened ≤ 6 }
    ensures { result ≡ deeper-of (masked s mask) tag number }
{
    let k = s.opened;
    let mut after = s;
    after.opened = k + 1;
    after.numbers[k + 1] = number;
    after.masks[k] = mask;
    after.masks[k + 1] = 0;
    after.marks[k] = s.start;
    after.tags[k] = tag;
    after
}

// Opens a message field after its tag is looked up. Refusals: TooDeep if seven fields are open.
#[tactic(auto, unfolding(crate::specs::internal::Nesting::open_known, writer_state::specs::Calls::call_result, writer_state::specs::Calls::or_refuse))]
fn open_known(k: Tagged, s: State, tag: u64) -> Result<State, Fault>
    requires { tag < 65536 }
    ensures { written s result ≡ open_known s k.mask tag (inner_of k.kind) }
{
    if 6 < s.opened {
        return Err(Refusal::TooDeep.at(0));
    }
    Ok(deeper(s, tag as u16, writer_state::inner(k.kind), k.mask))
}

// Opens a message field. Its mark is the offset at which its contents end: the fields that are put until it is closed lie before the
// mark. The field is noted in the message that it stands in, and nothing is noted in the new one. Refusals, all at place 0: State, Table,
// TagOrKind, Repeated, TooDeep if seven fields are open.
pub fn open_field(t: Table, s: State, tag: u64) -> Result<State, Fault>
    ensures { written s result ≡ answer t s [] (open_field tag) }
{
    let k = writer_state::tag_kind(t, s, s.length, tag, Wanted::Message)?;
    open_known(k, s, tag)
}

// Returns the level of the field that was opened last. Refusals: NothingOpen.
fn last_open(s: State) -> Result<usize, Fault>
    ensures { MatchResult result (λ k. (1 ≤ s.opened) × (k ≡ s.opened - 1)) (λ fault. (s.opened ≡ 0) × (fault ≡ record { refusal = Refusal.NothingOpen; place = 0 })) }
{
    s.opened.checked_sub(1).ok_or(Refusal::NothingOpen.at(0))
}

// Returns how many octets the contents of the open field at a level have. In a sound state no mark is below the start.
fn contents_length(s: State, k: usize) -> u64
    requires { k < 7 }
    ensures { result ≡ get_or s.marks k 0 - s.start }
{
    s.marks[k].saturating_sub(s.start) as u64
}

// Closes the field that was opened last, in a state that the call can use: stores its control part before its contents, whose length is known by
// now. Refusals: NothingOpen, NoRoom.
fn close_usable(s: State, out: &mut [u8]) -> Result<State, Fault>
    requires { usable s (length-of out.old) ≡ true }
    ensures value { written s result ≡ closed s }
    ensures out_after { out.new ≡ closed_buffer s out.old }
{
    let k = last_open(s)?;
    let tag = s.tags[k];
    let n = contents_length(s, k);
    let size = octets_put::control_size(tag, n);
    if s.start < size {
        return Err(Refusal::NoRoom.at(0));
    }
    let mut after = s;
    after.start = s.start - size;
    after.opened = k;
    octets_put::put_control(out, after.start, tag, n);
    Ok(after)
}

// Closes the field that was opened last. Refusals, all at place 0: State, Table, NothingOpen, NoRoom.
pub fn close_field(t: Table, s: State, out: &mut [u8]) -> Result<State, Fault>
    ensures value { written s result ≡ answer t s out.old close_field }
    ensures out_after { out.new ≡ buffer t s out.old close_field }
{
    if !writer_state::usable(s, out.len()) {
        return Err(Refusal::State.at(0));
    }
    if !table_index::valid(t) {
        return Err(Refusal::Table.at(0));
    }
    close_usable(s, out)
}
