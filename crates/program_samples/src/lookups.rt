// Looks up tags.
use crate::print::{self, Shown};
use crate::tables;
use message_calls::{Field, Found};
use program_lines::{Line, ROOM, Refused, part_of};
use reading::Fault;
use std::io;

// Prints every part of a lookup's result, and the octets of the contents.
fn found(rt: &impl Print, m: &[u8], looked: Result<Field, Fault>) -> io::Result<()> {
    let field = match looked {
        Ok(field) => field,
        Err(fault) => return rt.print(Refused(fault)),
    };
    let Found {
        kind,
        value,
        signed,
        start,
        length,
        ..
    } = Found::from(looked);
    print!(rt; "kind {kind} number {value} signed {signed} start {start} length {length}")?;
    let contents = part_of(m, field.start, field.length);
    print!(rt; " contents {}", Shown(contents))
}

// Returns whether a line asks for the last field: its word has four letters, of which only the first counts.
fn is_last(which: &[u8]) -> bool {
    which.len() == 4 && which.starts_with(b"l")
}

pub fn find(rt: &impl Print, line: Line) -> io::Result<()> {
    let (tag, revision, number) = (line.number(1), line.number(3), line.number(4));
    let t = tables::loaded(rt, line, 5)?;
    let mut space = [0u8; ROOM];
    let m = line.octets(6, &mut space);
    print::given(rt, m)?;
    let looked = if is_last(line.word(2).unwrap_or(b"")) {
        message_calls::lookup_last_loaded(t, revision, number, m, tag)
    } else {
        message_calls::lookup_loaded(t, revision, number, m, tag, line.number(2))
    };
    found(rt, m, looked)
}
