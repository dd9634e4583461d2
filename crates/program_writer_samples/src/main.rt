// Runs the writer on the script of standard input and reads back what it wrote. A line is a call, and its result is printed after it.
// program_lines describes how numbers and octets are written; an int may have a minus. A capital letter sets something, and the letters from
// w on read what is written.
//   T OCTETS            load a field table           C COUNT             give the table another count
//   B LENGTH            lend so much of the buffer   s REVISION NUMBER   start
//   u TAG NUMBER        put a uint                   i TAG NUMBER        put an int
//   o TAG OCTETS        put octets                   p TAG               open a message field
//   c                   close it                     f                   finish
//   w                   read the whole message       x TAG K             look up the k-th field
//   y TAG               look up the last             z TAG K NUMBER      look it up and read the message that it holds
//   L S O R NUMBER      change the state's length, start, count of open fields or revision
//   N K M LEVEL NUMBER  change the message number, the mask or the mark of a level
//   #                   a heading
#![tactic(auto)]

mod back;
mod print;
mod run;
mod state;

use program_lines::{Line, ROOM};
use std::io;

fn main(rt: HostRuntime) -> io::Result<()> {
    let mut input = [0u8; 16384];
    let n = program_lines::read_full(&mut rt.stdin(), &mut input)?;
    let mut buffer = [0xaau8; ROOM];
    let mut r = run::fresh();
    // A line ends at its newline: an empty one is run, and octets after the last newline are left.
    for whole in input[..n].split_inclusive(|x| *x == b'\n') {
        if let Some(text) = whole.strip_suffix(b"\n") {
            r = run::line(&rt, Line { text }, r, &mut buffer)?;
        }
    }
    Ok(())
}
