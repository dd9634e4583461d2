// Prints what several kinds of line have in common.
use program_lines::{Octets, Refused};
use reading::Fault;
use std::{fmt, io};

// Prints octets; of more than 40, their count and the first six.
#[derive(Clone, Copy)]
pub struct Shown<'a>(pub &'a [u8]);

impl<'a> fmt::Display for Shown<'a> {
    fn fmt<W: fmt::Write>(&self, f: &mut fmt::Formatter<W>) -> fmt::Result {
        let all = Octets(self.0);
        write!(f, "{all}")?;
        if 40 < self.0.len() {
            let front = Octets(&self.0[..6]);
            write!(f, " {front}..")?;
        }
        Ok(())
    }
}

// Prints the octets that a line passes to a function.
pub fn given(rt: &impl Print, s: &[u8]) -> io::Result<()> {
    print!(rt; "{} -> ", Shown(s))
}

// Prints the result of a function that writes into a buffer, and the whole buffer afterwards.
pub fn written(rt: &impl Print, length: Result<usize, Fault>, buffer: &[u8]) -> io::Result<()> {
    match length {
        Ok(n) => print!(rt; "{n} octets")?,
        Err(fault) => rt.print(Refused(fault))?,
    }
    print!(rt; ", buffer {}", Shown(buffer))
}
