// Runs the reader of QForm on a dictionary and a message, each as octets or with the dictionary loaded.
use crate::{checked, fields, none, print};
use program_lines::Refused;
use std::io;
use tib_dictionary::Dictionary;
use tib_qform::types::Field;

// Prints the k-th field of a message on a line of its own.
fn print_field(rt: &impl Print, s: &[u8], k: u64, f: Field) -> io::Result<()> {
    let data = print::octets(s, f.data);
    print!(rt;
        "\n{k} fid {} type {} data {} {data}",
        f.fid, f.kind, f.data.place
    )
}

// Checks a message and shows its fields.
pub fn message(rt: &impl Print, d: &[u8], s: &[u8]) -> io::Result<()> {
    let field = |k| tib_qform::field(d, s, k);
    fields(rt, tib_qform::check(d, s), field, |rt, k, f| {
        print_field(rt, s, k, f)
    })
}

// Asks for a field that the message does not have.
pub fn absent(rt: &impl Print, d: &[u8], s: &[u8]) -> io::Result<()> {
    none(rt, tib_qform::check(d, s), |k| tib_qform::field(d, s, k))
}

// Checks a message under a dictionary value and shows its first field.
fn under(rt: &impl Print, d: Dictionary, s: &[u8]) -> io::Result<()> {
    checked(rt, tib_qform::check_loaded(d, s))?;
    match tib_qform::field_loaded(d, s, 0) {
        Ok(f) => print_field(rt, s, 0, f),
        Err(fault) => print!(rt; ", {}", Refused(fault)),
    }
}

// Loads a dictionary, and reads a message under it.
pub fn loaded(rt: &impl Print, d: &[u8], s: &[u8]) -> io::Result<()> {
    match tib_dictionary_index::load(d) {
        Ok(dictionary) => {
            print!(rt; "records {}, ", dictionary.count)?;
            under(rt, dictionary, s)
        }
        Err(fault) => rt.print(Refused(fault)),
    }
}

// Reads a message under a dictionary value.
fn value(
    rt: &impl Print,
    label: &str,
    count: usize,
    words: [u64; 512],
    s: &[u8],
) -> io::Result<()> {
    print!(rt; "{label}: ")?;
    under(rt, Dictionary { count, words }, s)?;
    println!(rt)
}

// Tries dictionary values that did not come from the loader. The loader could have returned the first of them: fid 1, type 2, size 3.
pub fn values(rt: &impl Print) -> io::Result<()> {
    let message = b"\x11\x11\x11\x12\x00\x00\x00\x06\xc0\x01\xaa\xbb\xcc\xdd";
    let mut words = [0u64; 512];
    words[0] = 0x0001020003;
    value(rt, "value as the loader gives it", 1, words, message)?;
    value(rt, "value with an unused word not 0", 0, words, message)?;
    value(rt, "value with a fid twice", 2, [0u64; 512], message)?;
    value(rt, "value of 513 words", 513, words, message)?;
    words[0] = 0x4000020003;
    value(rt, "value with the fid 16384", 1, words, message)?;
    value(
        rt,
        "value with the fid 16384, header cut",
        1,
        words,
        b"\x11",
    )?;
    words[0] = 0x0001160003;
    value(rt, "value with the type 22", 1, words, message)?;
    words[0] = 0x00010f0008;
    value(rt, "value with the type 15 and size 8", 1, words, message)?;
    words[0] = 0x10001020003;
    value(rt, "value with a bit above the fid", 1, words, message)?;
    let long = [0u8; 65537];
    value(rt, "bad value and 65537 octets", 1, words, &long)
}
