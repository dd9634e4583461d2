// Opening and closing message fields under the octets of a field table.
ghost use Rattle.std.specs.Prelude.{◌≡◌, []};
ghost use Rattle.writer_state.specs.ByOctets.{answer_octets, buffer_octets};
ghost use Rattle.writer_state.specs.Call.{open_field, close_field};
ghost use Rattle.writer_state.specs.Results.{written};

use reading::{Fault, Refusal};
use writer_state::by_octets::{index_of, tag_kind_by_octets};
use writer_state::{State, Wanted};

// Opens a message field. Refusals, at place 0 except for Table: State, Table at the faulty record, TagOrKind, Repeated, TooDeep if seven fields
// are open.
pub fn open_field_by_octets(table: &[u8], s: State, tag: u64) -> Result<State, Fault>
    ensures { written s result ≡ answer_octets table.now s [] (open_field tag) }
{
    let k = tag_kind_by_octets(table, s, s.length, tag, Wanted::Message)?;
    crate::open_known(k, s, tag)
}

// Closes the field that was opened last. Refusals, at place 0 except for Table: State, Table at the faulty record, NothingOpen, NoRoom.
pub fn close_field_by_octets(table: &[u8], s: State, out: &mut [u8]) -> Result<State, Fault>
    ensures value { written s result ≡ answer_octets table.now s out.old close_field }
    ensures out_after { out.new ≡ buffer_octets table.now s out.old close_field }
{
    if !writer_state::usable(s, out.len()) {
        return Err(Refusal::State.at(0));
    }
    let _cells = index_of(table, s.revision)?;
    crate::close_usable(s, out)
}
