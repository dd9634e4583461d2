// Prints the fields that the readers return.
use program_lines::{Octets, Refused, part_of};
use reading::Refusal;
use std::{fmt, io};
use tib_field::{Field, Span};
use tib_real::types::Real;

// Prints the bits of a value, or `nan`: the language does not give the bits of a not-a-number.
#[derive(Clone, Copy)]
struct Bits(f64);

impl fmt::Display for Bits {
    fn fmt<W: fmt::Write>(&self, f: &mut fmt::Formatter<W>) -> fmt::Result {
        if self.0.is_nan() {
            write!(f, "nan")
        } else {
            let bits = self.0.to_bits();
            write!(f, "{bits:016x}")
        }
    }
}

// Prints a whole number, or the refusal.
#[derive(Clone, Copy)]
struct Whole(Result<i64, Refusal>);

impl fmt::Display for Whole {
    fn fmt<W: fmt::Write>(&self, f: &mut fmt::Formatter<W>) -> fmt::Result {
        match self.0 {
            Ok(value) => write!(f, "{value}"),
            Err(refusal) => Refused(refusal.at(0)).fmt(f),
        }
    }
}

// Prints a real: its value, its bits, and its value in fractions and in decimals.
pub fn real(rt: &impl Print, r: Real) -> io::Result<()> {
    let (value, bits) = (Bits(r.value), r.bits);
    let (fractions, decimals) = (
        Whole(tib_real::fractions(r)),
        Whole(tib_decimals::decimals(r)),
    );
    print!(rt; " real {value} {bits:016x} in fractions {fractions} in decimals {decimals}")
}

// Returns the octets of a span.
pub fn octets(s: &[u8], span: Span) -> Octets<'_> {
    Octets(part_of(s, span.place as usize, span.length as usize))
}

// Prints the k-th field of a message on a line of its own.
pub fn field(rt: &impl Print, s: &[u8], k: u64, f: Field) -> io::Result<()> {
    let (name, data) = (octets(s, f.name), octets(s, f.data));
    print!(rt; "\n{k} name {name} type {} data {data} hint ", f.kind)?;
    match f.hint {
        Some(hint) => print!(rt; "{} {}", hint.kind, hint.value),
        None => print!(rt; "-"),
    }
}
