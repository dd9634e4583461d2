// Prints octets, refusals, and the counts of a message.
use reading::{Counts, Fault};
use std::fmt;

// Prints octets in hexadecimal, or only their count where there are more than 40.
#[derive(Clone, Copy)]
pub struct Octets<'a>(pub &'a [u8]);

impl<'a> fmt::Display for Octets<'a> {
    fn fmt<W: fmt::Write>(&self, f: &mut fmt::Formatter<W>) -> fmt::Result {
        let Octets(s) = *self;
        let n = s.len();
        if n == 0 {
            return write!(f, "-");
        }
        if 40 < n {
            return write!(f, "{n} octets");
        }
        for x in s {
            write!(f, "{x:02x}")?;
        }
        Ok(())
    }
}

// Prints a refusal and its place.
#[derive(Clone, Copy)]
pub struct Refused(pub Fault);

impl fmt::Display for Refused {
    fn fmt<W: fmt::Write>(&self, f: &mut fmt::Formatter<W>) -> fmt::Result {
        let Fault { refusal, place } = self.0;
        let number = refusal.number();
        write!(f, "refused {number} at {place}")
    }
}

// Prints what a check returns for a message that it accepts.
#[derive(Clone, Copy)]
pub struct Counted(pub Counts);

impl fmt::Display for Counted {
    fn fmt<W: fmt::Write>(&self, f: &mut fmt::Formatter<W>) -> fmt::Result {
        let Counts { fields, depth } = self.0;
        write!(f, "fields {fields} depth {depth}")
    }
}

// Returns n octets from a place on; no octets where they do not lie within s.
pub fn part_of(s: &[u8], from: usize, n: usize) -> &[u8] {
    s.get(from..).and_then(|rest| rest.get(..n)).unwrap_or(b"")
}
