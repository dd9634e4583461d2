// The types of field tables. A field table tells which kind a tag has in messages of a given number. This crate also has the definitions
// (specs/) and the laws about them (proofs/). The functions are in table_index.

#![tactic(auto)]
// The entries of a field table, in the order in which they were loaded. The lowest 48 bits of a word are, from the highest to the lowest,
// an entry's message number (8 bits), tag (16 bits), kind (8 bits), inner message number (8 bits) and mark (8 bits: 0 many, 1 single). The
// loader sets the words beyond the count to 0.
// Kept: an array with a count beside it, since the library uses no heap, and callers pass any values: 65 entries, which `valid` rejects.
#[derive(Clone, Copy)]
pub struct Table {
    pub count: usize,
    pub words: [u64; 64],
}

// The kind of a tag in messages of a given number. A tag without an entry in the table is raw.
#[derive(Clone, Copy)]
pub enum Meaning {
    Raw,
    Uint,
    Int,
    String,
    Text,
    Message(u64),
}
