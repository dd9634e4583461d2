// Loads a field table and builds its index: a hash table from message number and tag to kind, inner number and mark. The index has 64 buckets.
// A search compares the whole key, so a bucket with several entries is slower but never wrong. The loader finds repeated pairs by an index.
#![tactic(auto)]

mod record;

ghost use Rattle.std.specs.Prelude.{◌≡◌, true, List, ℕ, ◌*◌, ◌%◌, ◌^◌, ◌≤◌, ◌<◌, min, eqb, length, take, drop, bit_or};
ghost use Rattle.std.specs.List.{fold};
ghost use Rattle.table.specs.Entry.{entry, kind_number};
ghost use Rattle.table.specs.Load.{in_range, place_at, record_at, word_at, well_formed, load as load_of, loaded};
ghost use Rattle.table.specs.Mask.{has_bit, with_bit};
ghost use Rattle.table.specs.Schema.{is_revision};
ghost use Rattle.table.specs.Valid.{all_zero, valid as valid-of};
ghost use Rattle.table_index.specs.internal.Pass.{InsertedRecords, IndexEnds};
ghost use Rattle.table_index.specs.internal.Cells.{word_key, bucket_of, cell_of, word_under, code_in, meaning_in, single_in, order_in, next_in, chase, search, insertable, linked, inserted, inserted_before, prefix_end, prefix_length, inserted_words, all_inserted, cell_for, indexed};

use reading::{Fault, Refusal};
use table::{Meaning, Table};

// Returns the message number, or 16 for every number from 16 on. These have no entries, so they can share their keys.
fn capped(number: u64) -> u64
    ensures { result ≡ min number 16 }
{
    number.min(16)
}

// Returns the bucket of a key.
#[tactic(auto, unfolding(crate::specs::internal::Cells::bucket_of))]
fn bucket(key: u64) -> usize
    requires { key < 2 ^ 21 }
    ensures { result ≡ bucket_of key }
{
    ((key / 65536 * 45 + key) % 64) as usize
}

// Returns the next cell of a chain, 0 at its end. The order falls along a chain. Arbitrary cells may break this: there the chain ends.
#[tactic(auto, unfolding(crate::specs::internal::Cells::next_in))]
fn next(cells: &[u32; 128], c: u64) -> u64
    ensures { result ≡ next_in cells.now c }
{
    let n = u64::from(cells[(64 + c % 64) as usize]);
    if c % 64 <= n % 64 {
        return 0;
    }
    n
}

// Returns the cell with a key in the chain that begins with a cell, or 0 if there is none.
// Kept: only a cell says which one comes after it; for this one loop an iterator over a chain would be a struct with a `next` of its own.
fn follow(cells: &[u32; 128], key: u64, first: u64) -> u64
    ensures { result ≡ chase 64 cells.now key first }
{
    let mut c = first;
    while c >> 12 != key {
        if c == 0 {
            return 0;
        }
        c = next(cells, c);
    }
    c
}

// Returns the key of the entry in a word.
fn word_key(w: u64) -> u64
    requires { in_range (entry w) ≡ true }
    ensures { result ≡ word_key w }
{
    w >> 24
}

// Returns the cell of a word with this key that is the i-th of its table.
fn cell_of(key: u64, w: u64, i: usize) -> u32
    requires w_value { in_range (entry w) ≡ true }
    requires key_value { key ≡ word_key w }
    requires i_bound { i < 64 }
    ensures { result ≡ cell_of w i }
{
    let code = (w >> 16) % 256 + (w >> 8) % 256;
    (((key * 2 + w % 256) * 32 + code) * 64 + (i as u64)) as u32
}

// Returns whether no cell has a key. Most buckets are empty while a table is inserted, so that case is tested first.
fn lacks(cells: &[u32; 128], key: u64) -> bool
    requires { key < 2 ^ 21 }
    ensures { result ≡ eqb (search cells.now key) 0 }
{
    let head = u64::from(cells[bucket(key)]);
    if head == 0 {
        return true;
    }
    follow(cells, key, head) == 0
}

// Makes the cell of a word with this key, the i-th of its table, the head of its bucket.
fn link(key: u64, w: u64, i: usize, cells: &mut [u32; 128])
    requires w_value { in_range (entry w) ≡ true }
    requires key_value { key ≡ word_key w }
    requires i_bound { i < 64 }
    ensures { cells.new ≡ linked w i cells.old }
{
    let b = bucket(key);
    cells[64 + i] = cells[b];
    cells[b] = cell_of(key, w, i);
}

// Inserts a word as the i-th of its table and returns true. If a cell already has its key, nothing changes and the result is false.
fn insert(w: u64, i: usize, cells: &mut [u32; 128]) -> bool
    requires w_value { in_range (entry w) ≡ true }
    requires i_bound { i < 64 }
    ensures value { result ≡ insertable w cells.old }
    ensures cells_after { cells.new ≡ inserted w i cells.old }
{
    let key = word_key(w);
    if !lacks(cells, key) {
        return false;
    }
    link(key, w, i, cells);
    true
}

// Returns a word under a revision: under revision 1 it has the mark 0.
#[tactic(auto, unfolding(crate::specs::internal::Cells::word_under))]
fn under(revision: u64, w: u64) -> u64
    ensures { result ≡ word_under revision w }
{
    if revision == 2 { w } else { w / 256 * 256 }
}

// Inserts the records at the start of a table's octets, up to the first one that is faulty or has a mark, and returns their count. Tables without
// marks are most frequent, and their records all have eight octets.
fn index_unmarked(table: &[u8], cells: &mut [u32; 128]) -> usize
    ensures { (revision : ℕ) → InsertedRecords revision table.now cells.old result (result * 8) cells.new }
{
    let most = (table.len() / 8).min(64);
    for n in 0..most {
        let Some(word) = record::unmarked_at(table, n * 8) else {
            return n;
        };
        if !insert(word, n, cells) {
            return n;
        }
    }
    most
}

// Inserts the other records. The first ones are inserted already and have eight octets each. Returns the place of the first faulty record.
fn index_from(table: &[u8], first: usize, revision: u64, cells: &mut [u32; 128]) -> usize
    requires { (first * 8 ≡ place_at table.now first) × (first * 8 ≤ length table.now) }
    ensures { (cells₀ : List ℕ) → InsertedRecords revision table.now cells₀ first (first * 8) cells.old → IndexEnds revision table.now cells₀ result cells.new }
{
    let mut at: usize = first * 8;
    for n in first..64 {
        let Some(record) = record::record_at(table, at) else {
            return at;
        };
        if !insert(under(revision, record.word), n, cells) {
            return at;
        }
        at += record.size;
    }
    at
}

// Inserts the records of a table's octets up to the first faulty one, under a revision, and returns the place at which that one begins. If the
// cells were cleared before, this decides what the loader does: it accepts the table if the octets end there, and else rejects that record.
pub fn index(table: &[u8], revision: u64, cells: &mut [u32; 128]) -> usize
    ensures value { result ≡ place_at table.now (prefix_end (λ i. well_formed (record_at table.now i)) (λ i. word_under revision (word_at table.now i)) cells.old 0 64) }
    ensures cells_after { cells.new ≡ inserted_before (λ i. word_under revision (word_at table.now i)) cells.old (prefix_end (λ i. well_formed (record_at table.now i)) (λ i. word_under revision (word_at table.now i)) cells.old 0 64) }
{
    let n = index_unmarked(table, cells);
    index_from(table, n, revision, cells)
}

// Does the same for words, of which it inserts at most 64, and returns how many it inserted. The inner loop runs over the earlier entries in the
// bucket of a word. The first one with the same pair ends both loops.
// Kept: document 01 names this form: two nested loops, left from inside by a label with the place.
fn insert_words(words: &[u64], revision: u64, cells: &mut [u32; 128]) -> usize
    ensures value { result ≡ prefix_length revision words.now cells.old }
    ensures cells_after { cells.new ≡ inserted_words revision words.now cells.old }
{
    let most = words.len().min(64);
    let mut n: usize = 0;
    'words: loop {
        if most <= n {
            break n;
        }
        if !record::in_range(words[n]) {
            break n;
        }
        let w = under(revision, words[n]);
        let key = word_key(w);
        let mut c = u64::from(cells[bucket(key)]);
        while c != 0 {
            if c >> 12 == key {
                break 'words n;
            }
            c = next(cells, c);
        }
        link(key, w, n, cells);
        n += 1;
    }
}

// Does the same for the first `count` words. If all words are in range, the first one that is not inserted repeats an earlier pair.
fn index_words(words: &[u64], count: usize, revision: u64, cells: &mut [u32; 128]) -> usize
    ensures value { result ≡ prefix_length revision (take count words.now) cells.old }
    ensures cells_after { cells.new ≡ inserted_words revision (take count words.now) cells.old }
{
    let n = count.min(words.len());
    insert_words(&words[0..n], revision, cells)
}

// Returns the disjunction of words. The fold has no test inside, so the compiler can vectorize it.
fn joined(words: &[u64]) -> u64
    ensures { result ≡ fold (λ b w. bit_or b w) 0 words.now }
{
    words.iter().fold(0, |bits, word| bits | *word)
}

// Returns whether the words from n on are all 0.
pub fn unused(words: &[u64], n: usize) -> bool
    ensures { result ≡ all_zero (drop n words.now) }
{
    joined(&words[n.min(words.len())..]) == 0
}

// Inserts the words of a table value under a revision. Returns whether all were inserted and the unused words are 0. If the cells were cleared
// before, this tells whether the loader can return the table value.
pub fn index_table(words: &[u64; 64], count: usize, revision: u64, cells: &mut [u32; 128]) -> bool
    ensures value { result ≡ all_inserted revision words.now count cells.old }
    ensures cells_after { cells.new ≡ inserted_words revision (take count words.now) cells.old }
{
    let n = index_words(words, count, revision, cells);
    if n < count {
        return false;
    }
    unused(words, count)
}

// Returns whether the loader can return a table value. The revision does not matter here.
pub fn valid(t: Table) -> bool
    ensures { result ≡ valid-of t }
{
    let mut cells = [0u32; 128];
    index_table(&t.words, t.count, 1, &mut cells)
}

// Returns whether a number is one of the profile's revisions.
#[tactic(auto, unfolding(table::specs::Schema::is_revision))]
pub fn is_revision(revision: u64) -> bool
    ensures { result ≡ is_revision revision }
{
    revision == 1 || revision == 2
}

// Returns the fault of a table at a place.
fn fault_at(place: usize) -> Fault
    ensures { result ≡ record { refusal = Refusal.Table; place = place } }
{
    Refusal::Table.at(place as u64)
}

// Loads a table from its octets, or rejects it at its first faulty record. A repeated pair among the well-formed records comes before the
// record at which they end, so it is tested first.
pub fn load(s: &[u8]) -> Result<Table, Fault>
    ensures { loaded result ≡ load_of s.now }
{
    let prefix = record::records(s);
    let table = prefix.table;
    let n = table.count;
    let mut cells = [0u32; 128];
    let first = index_words(&table.words, n, 1, &mut cells);
    if first < n {
        return Err(fault_at(record::place_at(s, first)));
    }
    if prefix.end < s.len() {
        return Err(fault_at(prefix.end));
    }
    Ok(table)
}

// Returns the cell of a message number and a tag, or 0 if there is none. Most tags have the first cell of their chain, so that is tested
// before the search. The key's number and tag are at hand, so the bucket is computed from them.
// Kept: a number, with 0 for none. `code`, `single` and `meaning` read the cell 0 as raw and not single, so callers need no test.
pub fn cell(cells: &[u32; 128], number: u64, tag: u64) -> u64
    ensures { result ≡ cell_for cells.now number tag }
{
    if 65535 < tag {
        return 0;
    }
    let n = capped(number);
    let key = n * 65536 + tag;
    let c = u64::from(cells[((n * 45 + tag) % 64) as usize]);
    if c >> 12 == key {
        return c;
    }
    follow(cells, key, c)
}

// Returns the code of a cell's kind: 0 to 4 for raw, uint, int, string and text, 5 + m for a message with the number m.
#[tactic(auto, unfolding(crate::specs::internal::Cells::code_in))]
pub fn code(cell: u64) -> u64
    ensures { result ≡ code_in cell }
{
    (cell >> 6) % 32
}

// Returns whether the tag of a cell is single.
#[tactic(auto, unfolding(crate::specs::internal::Cells::single_in))]
pub fn single(cell: u64) -> bool
    ensures { result ≡ single_in cell }
{
    (cell >> 11) % 2 == 1
}

// Returns the kind in a cell.
#[tactic(auto, unfolding(crate::specs::internal::Cells::meaning_in, crate::specs::internal::Cells::meaning_of, crate::specs::internal::Cells::code_in))]
pub fn meaning(cell: u64) -> Meaning
    ensures { result ≡ meaning_in cell }
{
    let c = code(cell);
    match c {
        0 => Meaning::Raw,
        1 => Meaning::Uint,
        2 => Meaning::Int,
        3 => Meaning::String,
        4 => Meaning::Text,
        _ => Meaning::Message(c - 5),
    }
}

// Returns the order, counted from 0, in which the entry of a cell stands in the table.
#[tactic(auto, unfolding(crate::specs::internal::Cells::order_in))]
pub fn order(cell: u64) -> u64
    ensures { result ≡ order_in cell }
{
    cell % 64
}

// Returns whether a mask has the bit of an order.
pub fn has_bit(mask: u64, order: u64) -> bool
    ensures { result ≡ has_bit mask (order % 64) }
{
    (mask >> (order % 64)) % 2 == 1
}

// Returns a mask with the bit of an order.
pub fn with_bit(mask: u64, order: u64) -> u64
    ensures { result ≡ with_bit mask (order % 64) }
{
    mask | (1 << (order % 64))
}

// Returns the kind that a tag has in messages of a number.
pub fn find(cells: &[u32; 128], number: u64, tag: u64) -> Meaning
    ensures { result ≡ (indexed cells.now).means number tag }
{
    meaning(cell(cells, number, tag))
}

// Returns the number of a kind, 0 for raw.
#[tactic(auto, unfolding(table::specs::Entry::kind_number))]
pub fn kind_number(kind: Meaning) -> u64
    ensures { result ≡ kind_number kind }
{
    match kind {
        Meaning::Raw => 0,
        Meaning::Uint => 1,
        Meaning::Int => 2,
        Meaning::String => 3,
        Meaning::Text => 4,
        Meaning::Message(_) => 5,
    }
}
