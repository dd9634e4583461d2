// The types of dictionaries of QForm messages. A dictionary has an entry for each field, with the type and the size of its data. This crate also
// has the definitions (specs/) and the laws about them (proofs/). The functions are in tib_dictionary_index.

#![tactic(auto)]
// The entry of a field: its number, called fid, and the type and the size of its data.
#[derive(Clone, Copy)]
pub struct Entry {
    pub fid: u64,
    pub kind: u64,
    pub size: u64,
}

// The entries of a dictionary, in the order in which they were loaded. The lowest 40 bits of a word are, from the highest to the lowest, an
// entry's fid (16 bits), type (8 bits) and size (16 bits); the others are 0. The loader sets the words beyond the count to 0.
// Kept: an array with a count beside it, since the library uses no heap, and callers pass any values: 513 entries, which are rejected.
#[derive(Clone, Copy)]
pub struct Dictionary {
    pub count: usize,
    pub words: [u64; 512],
}
