// Loads field tables, and tries table values that the loader does not return.
use crate::messages;
use program_lines::{Line, ROOM, Refused};
use reading::Fault;
use std::io;
use table::Table;

// Loads the table of the k-th word.
fn load(line: Line, k: usize) -> Result<Table, Fault> {
    let mut space = [0u8; ROOM];
    table_index::load(line.octets(k, &mut space))
}

// Loads the table of the k-th word. The word is meant to be a good table; a refusal is printed, and an empty table returned.
pub fn loaded(rt: &impl Print, line: Line, k: usize) -> io::Result<Table> {
    match load(line, k) {
        Ok(t) => Ok(t),
        Err(fault) => {
            print!(rt; "table {} ", Refused(fault))?;
            Ok(Table {
                count: 0,
                words: [0; 64],
            })
        }
    }
}

pub fn table(rt: &impl Print, line: Line) -> io::Result<()> {
    match load(line, 1) {
        Ok(t) => print!(rt; "entries {}", t.count),
        Err(fault) => rt.print(Refused(fault)),
    }
}

// Checks an empty message with a table value, under revision 2.
fn value(rt: &impl Print, label: &str, count: usize, words: [u64; 64]) -> io::Result<()> {
    print!(rt; "{label}: ")?;
    messages::checked(
        rt,
        message_calls::check_loaded(Table { count, words }, 2, 0, b""),
    )?;
    println!(rt)
}

// Tries table values that did not come from the loader. The loader could have returned the last two of them.
pub fn values(rt: &impl Print) -> io::Result<()> {
    let mut words = [0u64; 64];
    value(rt, "slot of kind 0", 1, words)?;
    value(rt, "count 65", 65, words)?;
    words[63] = 1;
    value(rt, "unused slot not 0", 0, words)?;
    let mut other = [0u64; 64];
    other[0] = 0xc010002;
    value(rt, "slot with the mark 2", 1, other)?;
    let mut good = [0u64; 64];
    good[0] = 0xc010000;
    value(rt, "value as the loader gives it", 1, good)?;
    good[0] = 0xc010001;
    value(rt, "the same with the mark 1", 1, good)
}
