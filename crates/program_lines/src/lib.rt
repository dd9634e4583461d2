// What the programs that run samples share: reading lines from standard input, and printing a label and a result for each.
//
// A line is words with one space between them, then `# ` and a label. Numbers are decimal. Octets are hexadecimal, `-` for none; any other
// character among the digits is ignored, so that commas can separate records. A number and `:` before them give the count of octets; those
// that are not written are 0. A buffer has 65,546 octets, one more than the longest that a function under test takes.
#![tactic(auto)]

mod input;
mod line;
mod print;

pub use input::{Program, number_in, read_full, samples};
pub use line::{Line, find};
pub use print::{Counted, Octets, Refused, part_of};

// The octets of a buffer.
// Kept: buffers of this size in place of a Vec, since a sample writes into one that is longer than any function under test fills.
pub const ROOM: usize = 65546;
