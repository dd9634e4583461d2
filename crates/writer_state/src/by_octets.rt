// The calls that take the octets of a field table. One pass over the octets tests them and indexes them.
ghost use Rattle.std.specs.Prelude.{◌≡◌, length as length-of, MatchResult};
ghost use Rattle.table.specs.Load.{load, refused};
ghost use Rattle.writer_state.specs.ByOctets.{started_octets};
ghost use Rattle.writer_state.specs.Calls.{begun};
ghost use Rattle.writer_state.specs.Results.{written};
ghost use Rattle.writer_state.specs.internal.Found.{found_answer, found_octets, IsIndex};
ghost use Rattle.writer_state.specs.internal.Tags.{wanted_number};

use crate::{State, Tagged, Wanted};
use reading::{Fault, Refusal};

// Returns the index of a table's octets under a revision. Refusals: Table at the faulty record.
pub fn index_of(table: &[u8], revision: u64) -> Result<[u32; 128], Fault>
    ensures { MatchResult result (λ cells. IsIndex table.now revision cells) (λ fault. (fault.refusal ≡ Refusal.Table) × (load table.now ≡ refused fault.place)) }
{
    let mut cells = [0u32; 128];
    let end = table_index::index(table, revision, &mut cells);
    if end < table.len() {
        return Err(Refusal::Table.at(end as u64));
    }
    Ok(cells)
}

// Looks up a tag in the innermost open message, for a call that wants a kind and gets a buffer of `len` octets. The index is made under the
// revision of the state. Refusals: State, Table at the faulty record, TagOrKind, Repeated.
pub fn tag_kind_by_octets(
    table: &[u8],
    s: State,
    len: usize,
    tag: u64,
    wanted: Wanted,
) -> Result<Tagged, Fault>
    ensures { found_answer result ≡ found_octets table.now s len tag (wanted_number wanted) }
{
    if !crate::usable(s, len) {
        return Err(Refusal::State.at(0));
    }
    // Kept: `index_of` returns the index by value, and the compiler copies it twice; a put under a small table then takes up to twice as long.
    let mut cells = [0u32; 128];
    let read = table_index::index(table, s.revision, &mut cells);
    if read < table.len() {
        return Err(Refusal::Table.at(read as u64));
    }
    crate::tag_under(&cells, s, tag, wanted)
}

// Starts a message with a number at the end of a lent buffer, under the octets of a table and a revision of the profile. Refusals: TooLong for a
// buffer over the limit, Table at the faulty record, Table at 0 for the revision and the number.
pub fn start_by_octets(table: &[u8], revision: u64, number: u64, out: &[u8]) -> Result<State, Fault>
    ensures { written (begun 0 0 0) result ≡ started_octets table.now revision number (length-of out.now) }
{
    if reading::MESSAGE_LIMIT < out.len() {
        return Err(Refusal::TooLong.at(0));
    }
    index_of(table, 1)?;
    crate::begin(out.len(), revision, number)
}
