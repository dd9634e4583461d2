// The put calls of the backward writer. Each stores a uint, int, string or text field before the fields that were put earlier.
#![tactic(auto)]

pub mod by_octets;

ghost use Rattle.std.specs.Prelude.{◌≡◌, true, ◌+◌, ◌-◌, ◌≤◌, leb, length as length-of};
ghost use Rattle.octets.specs.Number.{octets_of};
ghost use Rattle.octets.specs.Control.{least_control};
ghost use Rattle.table.specs.Entry.{kind_number};
ghost use Rattle.message.specs.Shortest.{field};
ghost use Rattle.octets_store.specs.Store.{stored};
ghost use Rattle.writer_state.specs.Call.{put_uint, put_int, put_octets};
ghost use Rattle.writer_state.specs.Answer.{answer, buffer};
ghost use Rattle.writer_state.specs.Calls.{masked as masked-of, readable as Readable-of};
ghost use Rattle.writer_state.specs.Results.{written};
ghost use Rattle.writer_put.specs.internal.Found.{put_known, buffer_known, Puttable};
ghost use Rattle.writer_put.specs.internal.Stores.{Before};

use octets::Least;
use reading::{Fault, Refusal};
use table::{Meaning, Table};
use writer_state::{State, Tagged, Wanted};

// Returns a state in which the innermost message has another mask.
#[tactic(auto, unfolding(writer_state::specs::Calls::masked))]
fn masked(s: State, mask: u64) -> State
    requires { s.opened ≤ 7 }
    ensures { result ≡ masked-of s mask }
{
    let mut after = s;
    after.masks[s.opened] = mask;
    after
}

// Returns whether a field with n octets of contents fits into the free octets. The sum could overflow, so n is compared first.
fn has_room(free: usize, tag: u16, n: usize) -> bool
    ensures { result ≡ leb (length-of (least_control tag n) + n) free }
{
    n <= free && octets_put::control_size(tag, n as u64) <= free - n
}

// Returns whether octets may be the contents of a field of this kind: those of a text field have to be text.
#[tactic(auto, using(crate::proofs::OctetKinds::reads_any), unfolding(writer_state::specs::Calls::readable, table::specs::Entry::kind_number))]
fn readable(kind: Meaning, xs: &[u8]) -> bool
    ensures { result ≡ Readable-of (kind_number kind) xs.now }
{
    match kind {
        Meaning::Text => octets_text::text(xs),
        _ => true,
    }
}

// Stores the control part of a field with n octets of contents, so that the field ends at `start`. Returns the offsets at which the field and its
// contents start.
fn store_control(out: &mut [u8], start: usize, tag: u16, n: usize) -> (usize, usize)
    requires { length-of (least_control tag n) + n ≤ start }
    ensures place { result.0 ≡ start - n - length-of (least_control tag n) }
    ensures contents { result.1 ≡ start - n }
    ensures out_after { out.new ≡ stored out.old result.0 (least_control tag n) }
{
    let contents = start - n;
    let at = contents - octets_put::control_size(tag, n as u64);
    octets_put::put_control(out, at, tag, n as u64);
    (at, contents)
}

// Stores a field whose contents are the octets of a number, so that it ends at `start`. Returns the offset at which the field starts.
fn store_number(out: &mut [u8], start: usize, tag: u16, least: Least) -> usize
    requires width_bound { length-of (least_control tag least.width) + least.width ≤ start }
    requires start_in_bounds { start ≤ length-of out.old }
    ensures { Before out.old start (field tag (octets_of least.width least.bits)) result out.new }
{
    let w = least.width;
    let (at, contents) = store_control(out, start, tag, w as usize);
    octets_put::put_number(out, contents, w, least.bits);
    at
}

// Stores a field with the contents `xs`, so that it ends at `start`. Returns the offset at which the field starts.
fn store_plain(out: &mut [u8], start: usize, tag: u16, xs: &[u8]) -> usize
    requires xs_bound { length-of (least_control tag (length-of xs.now)) + length-of xs.now ≤ start }
    requires start_in_bounds { start ≤ length-of out.old }
    ensures { Before out.old start (field tag xs.now) result out.new }
{
    let (at, contents) = store_control(out, start, tag, xs.len());
    octets_store::put_octets(out, contents, xs);
    at
}

// Puts a field whose contents are the least octets of a number, after its tag is looked up. Refusals: NoRoom.
fn put_least(k: Tagged, s: State, tag: u64, least: Least, out: &mut [u8]) -> Result<State, Fault>
    requires { Puttable s tag (length-of out.old) }
    ensures value { written s result ≡ put_known s k.mask tag true (octets_of least.width least.bits) }
    ensures out_after { out.new ≡ buffer_known s tag true (octets_of least.width least.bits) out.old }
{
    if !has_room(s.start, tag as u16, least.width as usize) {
        return Err(Refusal::NoRoom.at(0));
    }
    let mut after = masked(s, k.mask);
    after.start = store_number(out, s.start, tag as u16, least);
    Ok(after)
}

// Puts a field whose contents are the octets xs, after its tag is looked up. Refusals: Text for a text field, NoRoom.
fn put_plain(k: Tagged, s: State, tag: u64, xs: &[u8], out: &mut [u8]) -> Result<State, Fault>
    requires { Puttable s tag (length-of out.old) }
    ensures value { written s result ≡ put_known s k.mask tag (Readable-of (kind_number k.kind) xs.now) xs.now }
    ensures out_after { out.new ≡ buffer_known s tag (Readable-of (kind_number k.kind) xs.now) xs.now out.old }
{
    if !readable(k.kind, xs) {
        return Err(Refusal::Text.at(0));
    }
    if !has_room(s.start, tag as u16, xs.len()) {
        return Err(Refusal::NoRoom.at(0));
    }
    let mut after = masked(s, k.mask);
    after.start = store_plain(out, s.start, tag as u16, xs);
    Ok(after)
}

// Puts a uint field. Refusals, all at place 0: State, Table, TagOrKind, Repeated, NoRoom.
pub fn put_uint(t: Table, s: State, tag: u64, v: u64, out: &mut [u8]) -> Result<State, Fault>
    ensures value { written s result ≡ answer t s out.old (put_uint tag v) }
    ensures out_after { out.new ≡ buffer t s out.old (put_uint tag v) }
{
    let k = writer_state::tag_kind(t, s, out.len(), tag, Wanted::Uint)?;
    put_least(k, s, tag, octets_least::uint_least(v), out)
}

// Puts an int field. The refusals are those of put_uint.
pub fn put_int(t: Table, s: State, tag: u64, v: i64, out: &mut [u8]) -> Result<State, Fault>
    ensures value { written s result ≡ answer t s out.old (put_int tag v) }
    ensures out_after { out.new ≡ buffer t s out.old (put_int tag v) }
{
    let k = writer_state::tag_kind(t, s, out.len(), tag, Wanted::Int)?;
    put_least(k, s, tag, octets_least::int_least(v), out)
}

// Puts a string or a text field. Refusals, all at place 0: State, Table, TagOrKind, Repeated, Text for a text field only, NoRoom.
pub fn put_octets(t: Table, s: State, tag: u64, xs: &[u8], out: &mut [u8]) -> Result<State, Fault>
    ensures value { written s result ≡ answer t s out.old (put_octets tag xs.now) }
    ensures out_after { out.new ≡ buffer t s out.old (put_octets tag xs.now) }
{
    let k = writer_state::tag_kind(t, s, out.len(), tag, Wanted::Octets)?;
    put_plain(k, s, tag, xs, out)
}
