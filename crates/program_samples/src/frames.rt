// Reads and writes frames.
use crate::print;
use program_lines::{Line, ROOM, Refused};
use std::io;

fn place(rt: &impl Print, buffer: &[u8]) -> io::Result<()> {
    match message_frame::frame_read(buffer) {
        Ok(message) => print!(rt; "{} to {}", message.start, message.end),
        Err(fault) => rt.print(Refused(fault)),
    }
}

pub fn read(rt: &impl Print, line: Line) -> io::Result<()> {
    let mut space = [0u8; ROOM];
    let buffer = line.octets(1, &mut space);
    print::given(rt, buffer)?;
    place(rt, buffer)
}

pub fn write(rt: &impl Print, line: Line) -> io::Result<()> {
    let mut space = [0u8; ROOM];
    let m = line.octets(2, &mut space);
    let mut room = [0xaau8; ROOM];
    let out = &mut room[..line.room(1)];
    print::given(rt, m)?;
    print::written(rt, message_frame::frame_write(m, out), out)?;
    print!(rt; ", read ")?;
    place(rt, out)
}
