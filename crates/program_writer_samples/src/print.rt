// Prints octets, and a part of a buffer.
use std::fmt;

// Prints all octets in hexadecimal, `-` for none.
#[derive(Clone, Copy)]
pub struct Hex<'a>(pub &'a [u8]);

impl<'a> fmt::Display for Hex<'a> {
    fn fmt<W: fmt::Write>(&self, f: &mut fmt::Formatter<W>) -> fmt::Result {
        let Hex(s) = *self;
        if s.is_empty() {
            return write!(f, "-");
        }
        for x in s {
            write!(f, "{x:02x}")?;
        }
        Ok(())
    }
}

// Returns a part of octets; no octets where it does not lie within them.
pub fn part(s: &[u8], from: usize, to: usize) -> &[u8] {
    s.get(from..to).unwrap_or(b"")
}
