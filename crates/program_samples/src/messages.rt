// Checks and shortens messages.
use crate::print::{self, Shown};
use crate::tables;
use message_calls::Summary;
use program_lines::{Counted, Line, ROOM, Refused};
use reading::Fault;
use std::io;

// Prints the answer of the check: the refusal, or the counts and whether the message is in its shortest form.
pub fn checked(rt: &impl Print, read: Result<Summary, Fault>) -> io::Result<()> {
    match read {
        Ok(
            Summary {
                counts,
                shortest: true,
            },
        ) => print!(rt; "{}, shortest", Counted(counts)),
        Ok(Summary { counts, .. }) => print!(rt; "{}, not the shortest", Counted(counts)),
        Err(fault) => rt.print(Refused(fault)),
    }
}

pub fn message(rt: &impl Print, line: Line) -> io::Result<()> {
    let (revision, number) = (line.number(1), line.number(2));
    let t = tables::loaded(rt, line, 3)?;
    let mut space = [0u8; ROOM];
    let m = line.octets(4, &mut space);
    print::given(rt, m)?;
    checked(rt, message_calls::check_loaded(t, revision, number, m))?;
    print!(rt; ", ")?;
    let mut out = [0xaau8; ROOM];
    match message_calls::shorten_loaded(t, revision, number, m, &mut out) {
        Ok(length) => rt.print(Shown(out.get(..length).unwrap_or(b""))),
        Err(fault) => rt.print(Refused(fault)),
    }
}

pub fn shorten(rt: &impl Print, line: Line) -> io::Result<()> {
    let t = tables::loaded(rt, line, 2)?;
    let mut space = [0u8; ROOM];
    let m = line.octets(3, &mut space);
    let mut room = [0xaau8; ROOM];
    let out = &mut room[..line.room(1)];
    print::given(rt, m)?;
    print::written(rt, message_calls::shorten_loaded(t, 2, 0, m, out), out)
}
