// Runs one line of the script and prints its result.
use crate::print::{Hex, part};
use crate::{back, state};
use program_lines::{Line, ROOM, Refused};
use reading::Fault;
use std::io;
use table::Table;
use writer_state::{State, Written};

// A table with no entries.
const EMPTY: Table = Table {
    count: 0,
    words: [0; 64],
};

// What the lines so far have set: the table, the state, how much of the buffer is lent, and the message to read, with its revision, its number
// and its span in the buffer.
#[derive(Clone, Copy)]
pub struct Run {
    pub table: Table,
    pub state: State,
    pub lent: usize,
    pub revision: u64,
    pub number: u64,
    pub from: usize,
    pub to: usize,
}

pub fn fresh() -> Run {
    Run {
        table: EMPTY,
        state: writer_state::zeros(),
        lent: 0,
        revision: 0,
        number: 0,
        from: 0,
        to: 0,
    }
}

// Returns the signed number nearest to a size.
fn nearest(n: u64) -> i64 {
    i64::try_from(n).unwrap_or(i64::MAX)
}

// Returns the signed number nearest to a word. The complement of n - 1 is minus n.
fn signed(word: &[u8]) -> i64 {
    match word.strip_prefix(b"-") {
        Some(size) => match program_lines::number_in(size).checked_sub(1) {
            Some(n) => !nearest(n),
            None => 0,
        },
        None => nearest(program_lines::number_in(word)),
    }
}

fn octets(line: Line, t: Table, s: State, tag: u64, out: &mut [u8]) -> Result<State, Fault> {
    let mut space = [0u8; ROOM];
    writer_put::put_octets(t, s, tag, line.octets(2, &mut space), out)
}

fn call(what: u8, line: Line, t: Table, s: State, out: &mut [u8]) -> Result<State, Fault> {
    let tag = line.number(1);
    match what {
        b'u' => writer_put::put_uint(t, s, tag, line.number(2), out),
        b'i' => writer_put::put_int(t, s, tag, signed(line.word(2).unwrap_or(b"")), out),
        b'o' => octets(line, t, s, tag, out),
        b'p' => writer_nesting::open_field(t, s, tag),
        _ => writer_nesting::close_field(t, s, out),
    }
}

fn kept(same: bool) -> &'static str {
    if same { "kept" } else { "changed" }
}

// Prints the octets that a call stored, the place of the first, and whether the other octets are unchanged.
fn stored(
    rt: &impl Print,
    given: State,
    after: State,
    before: &[u8],
    now: &[u8],
) -> io::Result<()> {
    let (from, to) = (after.start, given.start);
    let octets = Hex(part(now, from, to));
    let around = part(before, 0, from) == part(now, 0, from)
        && part(before, to, before.len()) == part(now, to, now.len());
    print!(rt; "{octets} at {from}, rest {}", kept(around))
}

// Runs a put, an open or a close on the lent part of the buffer.
fn calls(
    rt: &impl Print,
    what: u8,
    line: Line,
    r: Run,
    buffer: &mut [u8; ROOM],
) -> io::Result<Run> {
    let whole = *buffer;
    let before = part(&whole, 0, r.lent);
    let Some(out) = buffer.get_mut(..r.lent) else {
        return Ok(r);
    };
    let answer = call(what, line, r.table, r.state, out);
    let after = Written::of(r.state, answer).state;
    match answer {
        Ok(_) => stored(rt, r.state, after, before, out)?,
        Err(fault) => {
            let state = kept(after == r.state);
            let octets = kept(before == &*out);
            print!(rt; "{}, state {state}, buffer {octets}", Refused(fault))?;
        }
    }
    Ok(Run { state: after, ..r })
}

// Runs a start. A refused start leaves the state of zeros.
fn starts(rt: &impl Print, line: Line, r: Run, buffer: &[u8]) -> io::Result<Run> {
    let zeros = writer_state::zeros();
    let answer = writer_state::start(
        r.table,
        line.number(1),
        line.number(2),
        part(buffer, 0, r.lent),
    );
    let after = Written::of(zeros, answer).state;
    match answer {
        Ok(_) => print!(rt; "at {}", after.start)?,
        Err(fault) => {
            let left = if after == zeros {
                "state of zeros"
            } else {
                "another state"
            };
            print!(rt; "{}, {left}", Refused(fault))?;
        }
    }
    Ok(Run { state: after, ..r })
}

// Runs a finish. The lines after it read the message that it returns.
fn finishes(rt: &impl Print, r: Run) -> io::Result<Run> {
    let from = match writer_state::finish(r.state) {
        Ok(start) => start,
        Err(fault) => {
            print!(rt; "{}, ", Refused(fault))?;
            0
        }
    };
    print!(rt; "start {from}, state kept")?;
    Ok(Run {
        revision: r.state.revision,
        number: r.state.numbers[0],
        from,
        to: r.lent,
        ..r
    })
}

fn loaded(rt: &impl Print, line: Line) -> io::Result<Table> {
    let mut space = [0u8; ROOM];
    let t = table_index::load(line.octets(1, &mut space)).unwrap_or(EMPTY);
    print!(rt; "entries {}", t.count)?;
    Ok(t)
}

// Runs a line that sets something: a table, how much of the buffer is lent, or a part of the state.
fn sets(rt: &impl Print, what: u8, line: Line, r: Run) -> io::Result<Run> {
    if what == b'T' {
        let table = loaded(rt, line)?;
        return Ok(Run { table, ..r });
    }
    print!(rt; "set")?;
    let count = line.number(1) as usize;
    match what {
        b'C' => Ok(Run {
            table: Table { count, ..r.table },
            ..r
        }),
        b'B' => Ok(Run { lent: count, ..r }),
        _ => Ok(Run {
            state: state::changed(what, line, r.state),
            ..r
        }),
    }
}

// Runs a line that reads what is written.
fn reads(rt: &impl Print, what: u8, line: Line, r: Run, buffer: &[u8]) -> io::Result<Run> {
    let m = part(buffer, r.from, r.to);
    if what == b'w' {
        back::message(rt, r.table, r.revision, r.number, m)?;
        return Ok(r);
    }
    let (tag, k) = (line.number(1), line.number(2));
    let found = match what {
        b'y' => message_calls::lookup_last_loaded(r.table, r.revision, r.number, m, tag),
        _ => message_calls::lookup_loaded(r.table, r.revision, r.number, m, tag, k),
    };
    back::field(rt, found, m)?;
    if what == b'x' || what == b'y' {
        return Ok(r);
    }
    let (start, length) = found.map_or((0, 0), |f| (f.start, f.length));
    let from = r.from.saturating_add(start);
    Ok(Run {
        number: line.number(3),
        from,
        to: from.saturating_add(length),
        ..r
    })
}

fn answer(
    rt: &impl Print,
    what: u8,
    line: Line,
    r: Run,
    buffer: &mut [u8; ROOM],
) -> io::Result<Run> {
    match what {
        b's' => starts(rt, line, r, buffer),
        b'f' => finishes(rt, r),
        _ if what < b'a' => sets(rt, what, line, r),
        _ if b'v' < what => reads(rt, what, line, r, buffer),
        _ => calls(rt, what, line, r, buffer),
    }
}

// Prints a line, runs it and prints its result.
pub fn line(rt: &impl Print, line: Line, r: Run, buffer: &mut [u8; ROOM]) -> io::Result<Run> {
    rt.write_all(line.text)?;
    let what = line.letter().unwrap_or(b' ');
    if what == b'#' {
        println!(rt)?;
        return Ok(r);
    }
    print!(rt; ": ")?;
    let next = answer(rt, what, line, r, buffer)?;
    println!(rt)?;
    Ok(next)
}
