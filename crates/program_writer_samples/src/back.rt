// Reads a message back: prints its octets, the counts of the check, whether it can be shortened, and the value of a field.
use crate::print::{Hex, part};
use message_calls::{Field, Value};
use program_lines::{Counted, ROOM, Refused};
use reading::Fault;
use std::io;
use table::Table;

// Prints whether the shortener returns the same octets, and a remark if the check said otherwise.
fn shortest(
    rt: &impl Print,
    t: Table,
    revision: u64,
    number: u64,
    m: &[u8],
    said: bool,
) -> io::Result<()> {
    let mut out = [0u8; ROOM];
    match message_calls::shorten_loaded(t, revision, number, m, &mut out) {
        Err(fault) => print!(rt; "{}", Refused(fault)),
        Ok(n) => {
            let same = part(&out, 0, n) == m;
            print!(rt; "{}", if same { "shortest" } else { "not the shortest" })?;
            if said != same {
                print!(rt; ", but the check says otherwise")?;
            }
            Ok(())
        }
    }
}

pub fn message(rt: &impl Print, t: Table, revision: u64, number: u64, m: &[u8]) -> io::Result<()> {
    print!(rt; "{}, ", Hex(m))?;
    match message_calls::check_loaded(t, revision, number, m) {
        Err(fault) => print!(rt; "{}", Refused(fault)),
        Ok(summary) => {
            print!(rt; "{}, ", Counted(summary.counts))?;
            shortest(rt, t, revision, number, m, summary.shortest)
        }
    }
}

// Prints the kind and the value of a field: the number of a uint or an int, the octets of the others.
pub fn field(rt: &impl Print, found: Result<Field, Fault>, m: &[u8]) -> io::Result<()> {
    let f = match found {
        Ok(f) => f,
        Err(fault) => return print!(rt; "{}", Refused(fault)),
    };
    let contents = program_lines::part_of(m, f.start, f.length);
    match f.value {
        Value::Uint(v) => print!(rt; "uint {v}"),
        Value::Int(v) => print!(rt; "int {v}"),
        Value::Raw => print!(rt; "kind 0 {}", Hex(contents)),
        Value::String => print!(rt; "kind 3 {}", Hex(contents)),
        Value::Text => print!(rt; "kind 4 {}", Hex(contents)),
        Value::Message => print!(rt; "kind 5 {}", Hex(contents)),
    }
}
