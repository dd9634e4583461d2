// Reads the input, and a word of a line: a number, or octets.
ghost use Rattle.std.specs.Prelude.{◌<◌, ◌≤◌, length, take, IfOk, IfSome};
ghost use Rattle.std.specs.Io.KnownBytes.{Consumes, IsAtEnd};

use crate::{Line, ROOM, find};
use std::io::{self, Read};

// Reads until the buffer is full or the input ends, and returns how many octets it stored at the front of the buffer.
// Kept: each turn of the loop takes as many octets as the reader has, so it is no loop over elements; std's loops of this kind fill a Vec.
pub fn read_full<R: Read>(reader: &mut R, buffer: &mut [u8]) -> io::Result<usize>
    ensures bound { IfOk result (λ n. n ≤ length buffer.new) }
    ensures bytes { IfOk result (λ n. Consumes (R.remaining reader.old) (R.remaining reader.new) (take n buffer.new)) }
    ensures full_or_end { IfOk result (λ n. n < length buffer.new → IsAtEnd (R.remaining reader.new)) }
{
    let mut done = 0;
    while done < buffer.len() {
        let n = reader.read(&mut buffer[done..])?;
        if n == 0 {
            return Ok(done);
        }
        done += n;
    }
    Ok(done)
}

// What a program does with the line of a sample.
pub trait Program {
    fn run<R: Print>(&self, rt: &R, line: Line) -> io::Result<()>;
}

// Runs each line of the input that is not empty and does not start with #, between its label and the end of a line.
pub fn samples<R: Print, P: Program>(rt: &R, input: &[u8], program: &P) -> io::Result<()> {
    for text in input.split(|x| *x == b'\n') {
        if text.is_empty() || text.starts_with(b"#") {
            continue;
        }
        let line = Line { text };
        rt.write_all(line.label())?;
        print!(rt; ": ")?;
        program.run(rt, line)?;
        println!(rt)?;
    }
    Ok(())
}

// Returns the value of a hexadecimal digit, none for any other character.
fn digit(x: u8) -> Option<u8>
    ensures { IfSome result (λ d. d < 16) }
{
    match x {
        b'0'..=b'9' => Some(x - b'0'),
        b'a'..=b'f' => Some(x - b'a' + 10),
        _ => None,
    }
}

// Returns the decimal number at the front of a word. It stops before a digit that might not fit.
pub fn number_in(s: &[u8]) -> u64 {
    let mut v: u64 = 0;
    for x in s {
        match digit(*x) {
            Some(d) if d < 10 && v <= 1844674407370955160 => v = v * 10 + u64::from(d),
            _ => return v,
        }
    }
    v
}

// Stores octets that are written in hexadecimal at the front of a buffer, and returns how many.
fn spell(s: &[u8], out: &mut [u8; ROOM]) -> usize {
    let mut digits = s.iter().filter_map(|x| digit(*x));
    for (n, x) in out.iter_mut().enumerate() {
        match (digits.next(), digits.next()) {
            (Some(high), Some(low)) => *x = high * 16 + low,
            _ => return n,
        }
    }
    ROOM
}

// Stores the octets of a word at the front of a buffer of zeros. Returns how many octets the word has, the zeros that it leaves out included.
pub(crate) fn store(s: &[u8], out: &mut [u8; ROOM]) -> usize {
    match s.get(find(s, 0, b':') + 1..) {
        Some(digits) => {
            spell(digits, out);
            number_in(s) as usize
        }
        None => spell(s, out),
    }
}
