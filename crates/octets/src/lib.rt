// Octets: big-endian numbers, signed numbers, text and control parts. This crate has the definitions (specs/) and the laws about them
// (proofs/). Its only code is the types below, which the definitions share with the functions of the crates above.

#![tactic(auto)]
// The control part at the start of octets: absent if there are no octets, partial if the octets end inside it, or whole. A whole one has a
// tag, the length of the contents, and its own size in octets.
#[derive(Clone, Copy)]
pub enum Control {
    Absent,
    Partial,
    Whole { tag: u64, length: u64, size: u64 },
}

// A control part as it was read, and whether its octets are the shortest form of its tag and length.
#[derive(Clone, Copy)]
pub struct ReadControl {
    pub control: Control,
    pub shortest: bool,
}

// An unsigned number as it was read, and whether its octets are its shortest form.
#[derive(Clone, Copy)]
pub struct ReadUint {
    pub value: u64,
    pub shortest: bool,
}

// A signed number as it was read, and whether its octets are its shortest form.
#[derive(Clone, Copy)]
pub struct ReadInt {
    pub value: i64,
    pub shortest: bool,
}

// The least octets of a number: how many, and their value when read as an unsigned number.
#[derive(Clone, Copy)]
pub struct Least {
    pub width: u64,
    pub bits: u64,
}

// The least control part of a tag and a length: the control octet, and how many octets of the tag and of the length follow it.
#[derive(Clone, Copy)]
pub struct LeastControl {
    pub octet: u8,
    pub tag_width: u64,
    pub length_width: u64,
}
