// Loads a dictionary of QForm messages, and notes its entries in cells, one for each fid, so that a reader finds a field without a search.
#![tactic(auto)]

ghost use Rattle.std.specs.Prelude.{◌≡◌, true, map, ◌+◌, ◌/◌, ◌≤◌, ◌<◌, length, take, drop};
ghost use Rattle.octets.specs.Number.{big_endian};
ghost use Rattle.tib_dictionary.specs.Entry.{in_range, word_of, entry as entry_of_word};
ghost use Rattle.tib_dictionary.specs.Load.{entry_of, formed as formed-of, dictionary_of, load as load_of, loaded};
ghost use Rattle.tib_dictionary.specs.internal.Cells.{cell_for, can_note, with_entry, note_from, note_all, all_noted, cells_after};
ghost use Rattle.tib_dictionary.specs.internal.Search.{records_of, records_at, first_with};

use reading::{Fault, Refusal};
use tib_dictionary::{Dictionary, Entry};

// Returns whether the numbers of an entry are in range. The type 15 has nine octets.
#[tactic(auto, unfolding(tib_dictionary::specs::Entry::in_range))]
fn in_range(e: Entry) -> bool
    ensures { result ≡ in_range e }
{
    if 16383 < e.fid {
        return false;
    }
    if 21 < e.kind {
        return false;
    }
    if 65535 < e.size {
        return false;
    }
    if e.kind == 15 {
        return e.size == 9;
    }
    true
}

// Returns the cell of an entry: half the octets of a field, with its FID and its padding.
#[tactic(auto, unfolding(tib_dictionary::specs::internal::Cells::cell_for, tib_dictionary::specs::Entry::in_range))]
fn cell(e: Entry) -> u16
    requires { in_range e ≡ true }
    ensures { result ≡ cell_for e }
{
    (1 + (e.size + 1) / 2) as u16
}

// Notes an entry in its cell and returns true. If the entry is out of range or its fid is noted already, nothing changes and the result is false.
#[tactic(auto, unfolding(tib_dictionary::specs::internal::Cells::can_note, tib_dictionary::specs::internal::Cells::with_entry, tib_dictionary::specs::Entry::in_range))]
fn note(e: Entry, cells: &mut [u16; 16384]) -> bool
    ensures value { result ≡ can_note cells.old e }
    ensures cells_after { cells.new ≡ with_entry e cells.old }
{
    if !in_range(e) {
        return false;
    }
    let i = e.fid as usize;
    if cells[i] != 0 {
        return false;
    }
    cells[i] = cell(e);
    true
}

// Returns whether eight octets from an offset on are a record: the tag 2, the length 5, and as many octets.
#[tactic(auto, unfolding(tib_dictionary::specs::Load::formed))]
fn formed_at(s: &[u8], at: usize) -> bool
    requires { at + 8 ≤ length s.now }
    ensures { result ≡ formed-of (drop at s.now) }
{
    if s[at] != 2 {
        return false;
    }
    if s[at + 1] != 0 {
        return false;
    }
    s[at + 2] == 5
}

// Returns the number in the two octets from an offset on.
fn two(s: &[u8], at: usize) -> u64
    requires { at + 2 ≤ length s.now }
    ensures { (result ≡ big_endian (take 2 (drop at s.now))) × (result < 65536) }
{
    u64::from(u16::from_be_bytes([s[at], s[at + 1]]))
}

// Returns the entry of the record at an offset. It fits in a word.
fn entry_at(s: &[u8], at: usize) -> Entry
    requires { at + 8 ≤ length s.now }
    ensures value { result ≡ entry_of (drop at s.now) }
    ensures fid_bound { (result.fid < 65536) × (result.kind < 256) × (result.size < 65536) }
{
    Entry {
        fid: two(s, at + 3),
        kind: u64::from(s[at + 5]),
        size: two(s, at + 6),
    }
}

// Notes the records of a dictionary's octets up to the first faulty one, and returns the place at which that one begins. If the cells were
// cleared before, this decides what the loader does: it accepts the dictionary if the octets end there, and else rejects that record.
pub fn note_records(s: &[u8], cells: &mut [u16; 16384]) -> usize
    ensures value { result ≡ (note_from 512 s.now cells.old).0 }
    ensures cells_after { cells.new ≡ (note_from 512 s.now cells.old).1 }
{
    let most = (s.len() / 8).min(512);
    for n in 0..most {
        if !formed_at(s, n * 8) {
            return n * 8;
        }
        if !note(entry_at(s, n * 8), cells) {
            return n * 8;
        }
    }
    most * 8
}

// Returns the entry in a word.
#[tactic(auto, unfolding(tib_dictionary::specs::Entry::entry))]
fn entry_in(w: u64) -> Entry
    ensures { result ≡ entry_of_word w }
{
    Entry {
        fid: w >> 24,
        kind: (w >> 16) % 256,
        size: w % 65536,
    }
}

// Notes the entries in the first `count` words and returns true. It stops before the first that cannot be noted, and then returns false.
fn note_all(words: &[u64], count: usize, cells: &mut [u16; 16384]) -> bool
    ensures value { result ≡ (note_all (take count words.now) cells.old).0 }
    ensures cells_after { cells.new ≡ (note_all (take count words.now) cells.old).1 }
{
    let used = &words[0..count.min(words.len())];
    for w in used {
        if !note(entry_in(*w), cells) {
            return false;
        }
    }
    true
}

// Notes the words of a dictionary value. Returns whether all were noted and the unused words are 0. If the cells were cleared before, this tells
// whether the loader can return the dictionary value.
#[tactic(auto, unfolding(tib_dictionary::specs::internal::Cells::all_noted, tib_dictionary::specs::internal::Cells::cells_after))]
pub fn note_words(words: &[u64; 512], count: usize, cells: &mut [u16; 16384]) -> bool
    ensures value { result ≡ all_noted words.now count cells.old }
    ensures cells_after { cells.new ≡ cells_after words.now count cells.old }
{
    if 512 < count {
        return false;
    }
    if !note_all(words, count, cells) {
        return false;
    }
    table_index::unused(words, count)
}

// Returns an entry as a word of a dictionary.
#[tactic(auto, unfolding(tib_dictionary::specs::Entry::word_of))]
fn word(e: Entry) -> u64
    requires { (e.fid < 65536) × (e.kind < 256) × (e.size < 65536) }
    ensures { result ≡ word_of e }
{
    (e.fid * 256 + e.kind) * 65536 + e.size
}

// Returns the dictionary of octets that are records. Internal: the caller has already noted them.
fn dictionary_of(s: &[u8]) -> Dictionary
    requires { length s.now ≤ 4096 }
    ensures { result ≡ dictionary_of (records_of (length s.now / 8) s.now) }
{
    let n = s.len() / 8;
    let mut words = [0u64; 512];
    for i in 0..n {
        words[i] = word(entry_at(s, i * 8));
    }
    Dictionary { count: n, words }
}

// Loads a dictionary from its octets, or rejects it at its first faulty record.
pub fn load(s: &[u8]) -> Result<Dictionary, Fault>
    ensures { loaded result ≡ load_of s.now }
{
    let mut cells = [0u16; 16384];
    let end = note_records(s, &mut cells);
    if end < s.len() {
        return Err(Refusal::Table.at(end as u64));
    }
    Ok(dictionary_of(s))
}

// Returns the first entry with a fid in the octets of a dictionary.
pub fn find_record(s: &[u8], fid: u64) -> Option<Entry>
    ensures { result ≡ first_with fid (records_at s.now) }
{
    (0..s.len() / 8)
        .map(|n| entry_at(s, n * 8))
        .find(|record| record.fid == fid)
}

// Returns the first entry with a fid among the first `count` words of a dictionary value.
pub fn find_word(words: &[u64; 512], count: usize, fid: u64) -> Option<Entry>
    ensures { result ≡ first_with fid (map entry_of_word (take count words.now)) }
{
    words
        .iter()
        .take(count)
        .map(|w| entry_in(*w))
        .find(|entry| entry.fid == fid)
}
