// Runs the readers of the Tib formats and of QForm on the messages of standard input, one to a line. A line says what to do (m, r and q:
// check a TibMsg, a TibrvMsg or a QForm message and show its fields; M, R and Q: ask for the field whose number is the count of fields),
// then has the octets of the message, and a label. For QForm the octets of the dictionary stand before those of the message. l is as q, with
// the dictionary loaded first, and shows only the first field. program_lines describes the form of a line. A line that starts with # is
// ignored. Samples that no line can express run after the last line.
#![tactic(auto)]

mod print;
mod qform;

use program_lines::{Counted, Line, Program, ROOM, Refused};
use reading::{Counts, Fault};
use std::io;

// Prints the answer of a check: the counts, or the refusal.
fn checked(rt: &impl Print, answer: Result<Counts, Fault>) -> io::Result<()> {
    match answer {
        Ok(counts) => rt.print(Counted(counts)),
        Err(fault) => rt.print(Refused(fault)),
    }
}

// The count of fields of an accepted message, 0 of one that is refused.
fn count(answer: Result<Counts, Fault>) -> u64 {
    answer.map_or(0, |counts| counts.fields)
}

// Prints the answer of a check, and what `show` prints of each field until one is refused: the count of a TibrvMsg message includes nested
// fields, and only the outermost ones can be asked for.
fn fields<R: Print, T, G: Fn(u64) -> Result<T, Fault>, S: Fn(&R, u64, T) -> io::Result<()>>(
    rt: &R,
    answer: Result<Counts, Fault>,
    field: G,
    show: S,
) -> io::Result<()>
    requires field { G.IsAlwaysCallable field }
    requires show { S.IsAlwaysCallable show }
{
    checked(rt, answer)?;
    for k in 0..count(answer) {
        let Ok(f) = field(k) else {
            return Ok(());
        };
        show(rt, k, f)?;
    }
    Ok(())
}

// Asks for the field whose number is the count of fields, which no message has.
fn none<T: Drop, G: Fn(u64) -> Result<T, Fault>>(
    rt: &impl Print,
    answer: Result<Counts, Fault>,
    field: G,
) -> io::Result<()>
    requires { G.IsAlwaysCallable field }
{
    match field(count(answer)) {
        Ok(_) => print!(rt; "not refused"),
        Err(fault) => rt.print(Refused(fault)),
    }
}

// Checks a TibMsg message and shows its fields, the reals read in fractions and in decimals too.
fn msg(rt: &impl Print, s: &[u8]) -> io::Result<()> {
    let field = |k| tib_msg::field(s, k);
    fields(rt, tib_msg::check(s), field, |rt, k, f| {
        print::field(rt, s, k, f)?;
        if f.kind == 7 {
            print::real(rt, f.real)?;
        }
        Ok(())
    })
}

// The same for a TibrvMsg message.
fn rv(rt: &impl Print, s: &[u8]) -> io::Result<()> {
    let field = |k| tib_rv::field(s, k);
    fields(rt, tib_rv::check(s), field, |rt, k, f| {
        print::field(rt, s, k, f)
    })
}

// The samples of this program.
struct Formats;

impl Program for Formats {
    // Runs a line with two words of octets; only the calls for QForm look at the second.
    fn run<R: Print>(&self, rt: &R, line: Line) -> io::Result<()> {
        let mut space = [0u8; ROOM];
        let mut other = [0u8; ROOM];
        let first = line.octets(1, &mut space);
        let second = line.octets(2, &mut other);
        match line.letter() {
            Some(b'm') => msg(rt, first),
            Some(b'M') => none(rt, tib_msg::check(first), |k| tib_msg::field(first, k)),
            Some(b'r') => rv(rt, first),
            Some(b'R') => none(rt, tib_rv::check(first), |k| tib_rv::field(first, k)),
            Some(b'q') => qform::message(rt, first, second),
            Some(b'Q') => qform::absent(rt, first, second),
            Some(b'l') => qform::loaded(rt, first, second),
            _ => print!(rt; "not a line"),
        }
    }
}

fn main(rt: HostRuntime) -> io::Result<()> {
    let mut input = [0u8; 65536];
    let n = program_lines::read_full(&mut rt.stdin(), &mut input)?;
    program_lines::samples(&rt, &input[..n], &Formats)?;
    qform::values(&rt)
}
