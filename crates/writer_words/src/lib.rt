// The writer's state as an array of numbers, as a C caller keeps it between calls.
#![tactic(auto)]

ghost use Rattle.std.specs.Prelude.{◌≡◌, ◌+◌, ◌≤◌, length as length-of, take, drop, replicate, nat_le};
ghost use Rattle.std.specs.List.{list_all};
ghost use Rattle.octets_store.specs.Store.{stored};
ghost use Rattle.writer_words.specs.Words.{low as low-of, holds as holds-of, state_of, untagged, words_after, used_after, array_after};
ghost use Rattle.writer_words.specs.internal.Tags.{tagged_after};

use writer_state::{State, Written};

// How many numbers the array of a state has. In this order they are the length of the buffer, the start, the count of open fields, the revision,
// eight message numbers, eight masks, seven marks and seven tags.
pub const STATE_WORDS: usize = 34;

// How many message fields may be open.
const LAST_OPEN: u64 = 7;

// The largest tag.
const LAST_TAG: u64 = 65535;

// Stores numbers from index `at` on; nothing if they do not all lie inside the array.
#[tactic(auto, unfolding(octets_store::specs::Store::stored))]
fn copy(out: &mut [u64], at: usize, s: &[u64])
    ensures { out.new ≡ stored out.old at s.now }
{
    let n = s.len();
    if octets_store::has_room(out.len(), at, n) {
        out[at..at + n].copy_from_slice(s);
    }
}

// Returns whether numbers are at most `limit`.
fn at_most(limit: u64, numbers: &[u64]) -> bool
    ensures { result ≡ list_all (λ n. nat_le n limit) numbers.now }
{
    numbers.iter().all(|n| *n <= limit)
}

// Returns the lowest 16 bits of a number.
#[tactic(auto, unfolding(crate::specs::Words::low))]
fn low(word: u64) -> u16
    ensures { result ≡ low-of word }
{
    (word % 65536) as u16
}

// Returns whether an array holds a state: it has the right length, at most seven fields are open, and no tag of an open field is over 65,535.
#[tactic(auto, using(crate::proofs::Arrays::tags_hold), unfolding(crate::specs::Words::holds))]
fn holds(words: &[u64]) -> bool
    ensures { result ≡ holds-of words.now }
{
    words.len() == STATE_WORDS
        && words[2] <= LAST_OPEN
        && at_most(LAST_TAG, &words[27..27 + words[2] as usize])
}

// Returns N numbers of an array from index `at` on.
fn part<const N: usize>(words: &[u64], at: usize) -> [u64; N]
    requires { at + N ≤ length-of words.now }
    ensures { result ≡ take N (drop at words.now) }
{
    <[u64; N]>::try_from(&words[at..at + N]).unwrap()
}

// Returns the state in an array, or the state of zeros where the array holds none. Tags that are not in use may be any numbers; the state has their
// lowest 16 bits.
#[tactic(auto, using(crate::proofs::Arrays::held_length), unfolding(crate::specs::Words::state_of))]
pub fn state_of(words: &[u64]) -> State
    ensures { result ≡ state_of words.now }
{
    if !holds(words) {
        return writer_state::zeros();
    }
    State {
        length: words[0] as usize,
        start: words[1] as usize,
        opened: words[2] as usize,
        revision: words[3],
        numbers: part(words, 4),
        masks: part(words, 12),
        marks: part::<7>(words, 20).map(|mark| mark as usize),
        tags: part::<7>(words, 27).map(low),
    }
}

// Returns marks as numbers of 64 bits.
fn wide_marks(m: [usize; 7]) -> [u64; 7]
    ensures { result ≡ m }
{
    m.map(|mark| mark as u64)
}

// Returns tags as numbers of 64 bits.
fn wide_tags(t: [u16; 7]) -> [u64; 7]
    ensures { result ≡ t }
{
    t.map(u64::from)
}

// Stores a state but its tags into an array of the right length.
fn store_untagged(words: &mut [u64], s: State)
    requires { length-of words.old ≡ 34 }
    ensures { words.new ≡ stored words.old 0 (untagged s) }
{
    copy(
        words,
        0,
        &[s.length as u64, s.start as u64, s.opened as u64, s.revision],
    );
    copy(words, 4, &s.numbers);
    copy(words, 12, &s.masks);
    copy(words, 20, &wide_marks(s.marks));
}

// Stores a state with its first n tags into an array, and leaves the other tags as they are. An array of another length stays as it is.
#[tactic(auto, unfolding(crate::specs::internal::Tags::tagged_after))]
fn store_tags(words: &mut [u64], s: State, n: usize)
    requires { n ≤ 7 }
    ensures { words.new ≡ tagged_after words.old s n }
{
    if words.len() == STATE_WORDS {
        store_untagged(words, s);
        copy(words, 27, &wide_tags(s.tags)[..n]);
    }
}

// Stores a state into an array. An array of another length stays as it is.
#[tactic(auto, using(crate::proofs::Arrays::all_tags))]
pub fn store(words: &mut [u64], s: State)
    ensures { words.new ≡ words_after words.old s }
{
    store_tags(words, s, 7);
}

// Does the same, but leaves tags that are not in use as they are.
#[tactic(auto, using(crate::proofs::Arrays::used_tags))]
fn store_used(words: &mut [u64], s: State)
    ensures { words.new ≡ used_after words.old s }
{
    store_tags(words, s, s.opened.min(7));
}

// Stores the state after an accepted call, and leaves tags that are not in use as they are. A refused call leaves the array as it was.
#[tactic(auto, unfolding(crate::specs::Words::array_after))]
pub fn store_accepted(words: &mut [u64], w: Written)
    ensures { words.new ≡ array_after words.old w }
{
    if w.refusal == 0 {
        store_used(words, w.state);
    }
}

// Sets every number of an array to 0.
pub fn clear(words: &mut [u64])
    ensures { words.new ≡ replicate (length-of words.old) 0 }
{
    words.fill(0);
}
