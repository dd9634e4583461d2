// The put calls that take the octets of a field table.
ghost use Rattle.std.specs.Prelude.{◌≡◌};
ghost use Rattle.writer_state.specs.ByOctets.{answer_octets, buffer_octets};
ghost use Rattle.writer_state.specs.Call.{put_uint, put_int, put_octets};
ghost use Rattle.writer_state.specs.Results.{written};

use reading::Fault;
use writer_state::by_octets::tag_kind_by_octets;
use writer_state::{State, Wanted};

// Puts a uint field. Refusals, at place 0 except for Table: State, Table at the faulty record, TagOrKind, Repeated, NoRoom.
pub fn put_uint_by_octets(
    table: &[u8],
    s: State,
    tag: u64,
    v: u64,
    out: &mut [u8],
) -> Result<State, Fault>
    ensures value { written s result ≡ answer_octets table.now s out.old (put_uint tag v) }
    ensures out_after { out.new ≡ buffer_octets table.now s out.old (put_uint tag v) }
{
    let k = tag_kind_by_octets(table, s, out.len(), tag, Wanted::Uint)?;
    crate::put_least(k, s, tag, octets_least::uint_least(v), out)
}

// Puts an int field. The refusals are those of put_uint_by_octets.
pub fn put_int_by_octets(
    table: &[u8],
    s: State,
    tag: u64,
    v: i64,
    out: &mut [u8],
) -> Result<State, Fault>
    ensures value { written s result ≡ answer_octets table.now s out.old (put_int tag v) }
    ensures out_after { out.new ≡ buffer_octets table.now s out.old (put_int tag v) }
{
    let k = tag_kind_by_octets(table, s, out.len(), tag, Wanted::Int)?;
    crate::put_least(k, s, tag, octets_least::int_least(v), out)
}

// Puts a string or a text field. The refusals are those of put_uint_by_octets, and Text for a text field, before NoRoom.
pub fn put_octets_by_octets(
    table: &[u8],
    s: State,
    tag: u64,
    xs: &[u8],
    out: &mut [u8],
) -> Result<State, Fault>
    ensures value { written s result ≡ answer_octets table.now s out.old (put_octets tag xs.now) }
    ensures out_after { out.new ≡ buffer_octets table.now s out.old (put_octets tag xs.now) }
{
    let k = tag_kind_by_octets(table, s, out.len(), tag, Wanted::Octets)?;
    crate::put_plain(k, s, tag, xs, out)
}
