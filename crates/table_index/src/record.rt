// Reads the records in the octets of a field table.
ghost use Rattle.std.specs.Prelude.{◌≡◌, ℕ, IfSome, ◌+◌, ◌%◌, ◌^◌, ◌≤◌, ◌<◌, length, take, drop, get_or};
ghost use Rattle.octets.specs.Number.{big_endian};
ghost use Rattle.table.specs.Entry.{entry};
ghost use Rattle.table.specs.Load.{in_range, announced as announced-of, record_size, place_at};
ghost use Rattle.table_index.specs.internal.Pass.{Passed};
ghost use Rattle.table_index.specs.internal.Record.{record_of, sized_word, Unmarked};

use table::Table;

// A well-formed record: the word of its entry, and the number of its octets.
#[derive(Clone, Copy)]
pub(crate) struct Record {
    pub(crate) word: u64,
    pub(crate) size: usize,
}

// The well-formed records at the start of octets: their table, and the place after them.
#[derive(Clone, Copy)]
pub(crate) struct Prefix {
    pub(crate) table: Table,
    pub(crate) end: usize,
}

// Returns whether the entry in a word is in range. The inner number is 0 for every kind but 5, which allows 0 to 15. The mark is 0 or 1.
#[tactic(auto, unfolding(table::specs::Load::in_range, table::specs::Entry::entry))]
pub(crate) fn in_range(w: u64) -> bool
    ensures { result ≡ in_range (entry w) }
{
    let number = w / 1099511627776;
    let kind = w / 65536 % 256;
    let inner = w / 256 % 256;
    if reading::LAST_NUMBER < number {
        return false;
    }
    if 1 < w % 256 {
        return false;
    }
    if inner != 0 {
        if kind != 5 {
            return false;
        }
        return inner < 16;
    }
    if kind == 0 {
        return false;
    }
    kind < 6
}

// Returns the record of a word and a size, if the entry in the word is in range.
#[tactic(auto, unfolding(crate::specs::internal::Record::sized_word))]
fn sized_word(word: u64, size: usize) -> Option<Record>
    ensures { result ≡ sized_word word size }
{
    in_range(word).then_some(Record { word, size })
}

// Returns the number in the five octets from an offset on, the most significant octet first.
fn five(s: &[u8], at: usize) -> u64
    requires { at + 5 ≤ length s.now }
    ensures { (result ≡ big_endian (take 5 (drop at s.now))) × (result < 2 ^ 40) }
{
    u64::from_be_bytes([0, 0, 0, s[at], s[at + 1], s[at + 2], s[at + 3], s[at + 4]])
}

// Returns the length that the record at an offset announces.
fn announced(s: &[u8], at: usize) -> u64
    requires { at + 3 ≤ length s.now }
    ensures { result ≡ announced-of (drop at s.now) }
{
    u64::from(s[at + 1]) * 256 + u64::from(s[at + 2])
}

// Returns the record at an offset, if it is well-formed. A record of length 5 has no mark, so its word has the mark 0.
pub(crate) fn record_at(s: &[u8], at: usize) -> Option<Record>
    requires { at ≤ length s.now }
    ensures { result ≡ record_of (drop at s.now) }
{
    let remaining = s.len() - at;
    if remaining < 8 {
        return None;
    }
    if s[at] != 1 {
        return None;
    }
    let length = announced(s, at);
    let unmarked = five(s, at + 3) * 256;
    if length == 5 {
        return sized_word(unmarked, 8);
    }
    if length != 6 {
        return None;
    }
    let mark = s.get(at + 8)?;
    sized_word(unmarked + u64::from(*mark), 9)
}

// Returns the word of the record at an offset, if it is well-formed and has no mark. `record_at` reads every record, but takes longer.
pub(crate) fn unmarked_at(s: &[u8], at: usize) -> Option<u64>
    requires { at + 8 ≤ length s.now }
    ensures { IfSome result (Unmarked (drop at s.now)) }
{
    if s[at] != 1 || s[at + 1] != 0 || s[at + 2] != 5 {
        return None;
    }
    let word = five(s, at + 3) * 256;
    in_range(word).then_some(word)
}

// Returns the records before the first one that is not well-formed, and at most 64.
pub(crate) fn records(s: &[u8]) -> Prefix
    ensures { Passed s.now result.table.count result.table.words result.end }
{
    let mut words = [0u64; 64];
    let mut at: usize = 0;
    for n in 0..64 {
        let Some(record) = record_at(s, at) else {
            return Prefix {
                table: Table { count: n, words },
                end: at,
            };
        };
        words[n] = record.word;
        at += record.size;
    }
    Prefix {
        table: Table { count: 64, words },
        end: at,
    }
}

// Returns how many octets the record at an offset has, by the length that it announces.
#[tactic(auto, unfolding(table::specs::Load::record_size))]
fn size_at(s: &[u8], at: usize) -> usize
    requires { at + 3 ≤ length s.now }
    ensures { result ≡ record_size (drop at s.now) }
{
    if announced(s, at) == 6 { 9 } else { 8 }
}

// Returns the place of the record at i, counted from 0. The octets must not end before it.
pub(crate) fn place_at(s: &[u8], i: usize) -> usize
    requires { place_at s.now i ≤ length s.now }
    ensures { result ≡ place_at s.now i }
{
    let mut at: usize = 0;
    for _n in 0..i {
        at += size_at(s, at);
    }
    at
}
