// Storing octets into a lent buffer, and moving octets towards its end. Octets that do not fit are not stored, so that no call reaches
// beyond the buffer.
#![tactic(auto)]

ghost use Rattle.std.specs.Prelude.{◌≡◌, ◌+◌, ◌≤◌, leb, length as length-of};
ghost use Rattle.octets_store.specs.Store.{stored};
ghost use Rattle.octets_store.specs.internal.Moved.{moved};

// Returns whether n octets at offset `at` lie within `len`. The sum could overflow, so n is compared with the difference.
pub fn has_room(len: usize, at: usize, n: usize) -> bool
    ensures { result ≡ leb (at + n) len }
{
    at <= len && n <= len - at
}

// Stores octets at offset `at`.
#[tactic(auto, using(crate::proofs::Stores::put_stored), unfolding(crate::specs::Store::stored))]
pub fn put_octets(out: &mut [u8], at: usize, s: &[u8])
    ensures { out.new ≡ stored out.old at s.now }
{
    let n = s.len();
    if has_room(out.len(), at, n) {
        out[at..at + n].copy_from_slice(s);
    }
}

// Copies a block of at most 8,192 octets of the buffer `by` octets towards its end. The compiler makes one call of memmove of the two copies
// and drops the array. A longer array would take the prover longer.
#[tactic(auto, using(crate::proofs::Moves::block_moved))]
fn move_block(out: &mut [u8], at: usize, n: usize, by: usize)
    requires by_in_bounds { at + n + by ≤ length-of out.old }
    requires n_bound { n ≤ 8192 }
    ensures { out.new ≡ moved out.old at n by }
{
    let mut kept = [0u8; 8192];
    kept[..n].copy_from_slice(&out[at..at + n]);
    out[at + by..at + by + n].copy_from_slice(&kept[..n]);
}

// Kept: one `copy_within` in place of the blocks takes up to twice as long (measured for 60 to 20,000 octets, moved by 3).
// Copies n octets of the buffer `by` octets towards its end, block by block. The last block is copied first, so that each block is read
// before another overwrites it; the first `remaining` octets are still to be copied.
#[tactic(auto, using(crate::proofs::Moves::by_blocks))]
pub fn move_up(out: &mut [u8], at: usize, n: usize, by: usize)
    ensures { out.new ≡ moved out.old at n by }
{
    if has_room(out.len(), at, n) && has_room(out.len(), at + n, by) {
        let mut remaining = n;
        while 0 < remaining {
            let k = remaining.min(8192);
            remaining -= k;
            move_block(out, at + remaining, k, by);
        }
    }
}
