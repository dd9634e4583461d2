// Runs the worked examples of the documents, and cases that are easy to get wrong, through the public functions. Each line of standard
// input is a sample; program_lines describes its form. The first word says what to do, and only its first letter counts:
//
//     message REVISION NUMBER TABLE OCTETS          check a message and shorten it
//     shorten ROOM TABLE OCTETS                     shorten a message of number 0 into a buffer of ROOM octets, all of them aa
//     find TAG WHICH REVISION NUMBER TABLE OCTETS   look a tag up; WHICH is counted from 0, or is the word last
//     table OCTETS                                  load a table
//     read OCTETS                                   read a frame
//     write ROOM OCTETS                             write a frame into a buffer of ROOM octets, all of them aa, and read it
//
// A line that starts with # is ignored. Samples that no line can express run after the last line. Where no revision is named it is 2.
#![tactic(auto)]

mod frames;
mod lookups;
mod messages;
mod print;
mod tables;

use program_lines::{Line, Program};
use std::io;

// The samples of this program.
struct Documents;

impl Program for Documents {
    fn run<R: Print>(&self, rt: &R, line: Line) -> io::Result<()> {
        match line.letter() {
            Some(b'm') => messages::message(rt, line),
            Some(b's') => messages::shorten(rt, line),
            Some(b'f') => lookups::find(rt, line),
            Some(b't') => tables::table(rt, line),
            Some(b'r') => frames::read(rt, line),
            Some(b'w') => frames::write(rt, line),
            _ => print!(rt; "not a line"),
        }
    }
}

fn main(rt: HostRuntime) -> io::Result<()> {
    let mut input = [0u8; 65536];
    let n = program_lines::read_full(&mut rt.stdin(), &mut input)?;
    program_lines::samples(&rt, &input[..n], &Documents)?;
    tables::values(&rt)
}
