// Reads QForm messages under a dictionary: checks a whole message, and returns its k-th field. Each call comes twice: one takes the octets of
// a dictionary, the other a dictionary that was loaded. A message that is too long is rejected before the dictionary is read.
#![tactic(auto)]

mod source;
pub mod types;

ghost use Rattle.std.specs.Prelude.{◌≡◌, List, suc, ◌+◌, ◌≤◌, ◌<◌, ◌^◌, length, drop};
ghost use Rattle.reading.specs.Reading.{message_limit};
ghost use Rattle.reading.specs.Checks.{refusal, checked};
ghost use Rattle.reading.specs.internal.Verdicts.{IsAccepted, verdict, verdict_of};
ghost use Rattle.tib_field.specs.internal.KthOf.{kth_of};
ghost use Rattle.tib_dictionary.specs.internal.Cells.{CellsOf};
ghost use Rattle.tib_qform_field.specs.Reading.{fields_from, reading};
ghost use Rattle.tib_field.specs.Steps.{flat_depth};
ghost use Rattle.tib_qform.specs.CheckAndField.{check as check_of, field as field_of, refused_field, shown_by, places, under_dictionary, check_octets, check_loaded, field_octets, field_loaded};
ghost use Rattle.tib_qform.specs.InNumbers.{accepted_field, field_answer};
ghost use Rattle.tib_qform.specs.internal.Found.{in_reading, kth_by, found_of};

use reading::{Counts, Fault, Refusal};
use source::{Records, Source};
use tib_dictionary::{Dictionary, Entry};
use tib_field::Span;
use types::Field;

// The place and the fid of a field.
#[derive(Clone, Copy)]
struct Found {
    place: usize,
    fid: u64,
}

// Traverses the fields of a message. Internal: the caller has already tested the header.
fn traverse(cells: &[u16; 16384], s: &[u8]) -> Result<Counts, Fault>
    requires { 8 ≤ length s.now }
    ensures { (es : List Entry) → CellsOf es cells.now → verdict result ≡ verdict_of length flat_depth (fields_from es (suc (length s.now)) 8 (drop 8 s.now)) }
{
    let mut i: usize = 8;
    let mut fields: u64 = 0;
    // Kept: each turn moves on by the octets of a field; an iterator over fields would be a type with laws of its own, for two short loops.
    while i < s.len() {
        // Kept: `map_err` and `?` take 12 % longer here than `match`: 62.5 µs, not 55.6, for 64 KiB in 9,375 fields.
        match tib_qform_field::field_octets(cells, s, i) {
            Ok(octets) => {
                i += octets;
                fields += 1;
            }
            Err(refusal) => return Err(refusal.at(i as u64)),
        }
    }
    Ok(Counts { fields, depth: 1 })
}

// Reads a whole message: its header, then its fields. Internal: the caller has already rejected a message that is too long.
fn read(cells: &[u16; 16384], message: &[u8]) -> Result<Counts, Fault>
    requires { length message.now ≤ message_limit }
    ensures { (es : List Entry) → CellsOf es cells.now → verdict result ≡ verdict_of length flat_depth (reading es message.now) }
{
    tib_field::check_header(message, b"\x11\x11\x11\x12").map_err(|r| r.at(0))?;
    traverse(cells, message)
}

// Returns the place and the fid of the k-th field of a message that is accepted, or None if it has no such field. No field of such a message
// is wrong.
fn find(cells: &[u16; 16384], s: &[u8], k: u64) -> Option<Found>
    ensures { (es : List Entry) → CellsOf es cells.now → IsAccepted (reading es s.now) → result ≡ found_of (kth_of places k (reading es s.now)) }
{
    let mut i: usize = 8;
    let mut remaining = k;
    // Kept: as in `traverse`.
    while i < s.len() {
        let octets = tib_qform_field::field_octets(cells, s, i).ok()?;
        if remaining == 0 {
            return Some(Found {
                place: i,
                fid: tib_qform_field::fid(s[i], s[i + 1]),
            });
        }
        i += octets;
        remaining -= 1;
    }
    None
}

// Checks a whole message and returns the place and the fid of its k-th field. Internal: the caller has already rejected a message that is too long.
fn locate(cells: &[u16; 16384], message: &[u8], k: u64) -> Result<Found, Fault>
    requires { length message.now ≤ message_limit }
    ensures { (es : List Entry) → CellsOf es cells.now → in_reading result ≡ kth_by k (reading es message.now) }
{
    read(cells, message)?;
    find(cells, message, k).ok_or(Refusal::Absent.at(0))
}

// Returns the field of an entry at a place. Its data come after the two octets of its FID.
#[tactic(auto, unfolding(crate::specs::CheckAndField::shown_by))]
fn shown(at: usize, fid: u64, e: Entry) -> Field
    requires { at < 2 ^ 32 }
    ensures { accepted_field result ≡ shown_by at fid e }
{
    Field {
        fid,
        kind: e.kind,
        data: Span {
            place: (at + 2) as u64,
            length: e.size,
        },
    }
}

// Checks a whole message under a dictionary.
fn check_under<D: Source>(d: &D, message: &[u8]) -> Result<Counts, Fault>
    ensures { checked result ≡ under_dictionary refusal (λ es. check_of es message.now) (D.read d.now) message.now }
{
    if reading::MESSAGE_LIMIT < message.len() {
        return Err(Refusal::TooLong.at(0));
    }
    let mut cells = [0u16; 16384];
    d.note(&mut cells)
        .map_err(|record| Refusal::Table.at(record))?;
    read(&cells, message)
}

// Returns the k-th field of a message under a dictionary.
fn field_under<D: Source>(d: &D, message: &[u8], k: u64) -> Result<Field, Fault>
    ensures { field_answer result ≡ under_dictionary refused_field (λ es. field_of es message.now k) (D.read d.now) message.now }
{
    if reading::MESSAGE_LIMIT < message.len() {
        return Err(Refusal::TooLong.at(0));
    }
    let mut cells = [0u16; 16384];
    d.note(&mut cells)
        .map_err(|place| Refusal::Table.at(place))?;
    let found = locate(&cells, message, k)?;
    let entry = d.entry(found.fid).unwrap();
    Ok(shown(found.place, found.fid, entry))
}

// Checks a whole message under the octets of a dictionary. Returns its refusal, or the count of its fields and the depth 1.
#[tactic(auto, unfolding(crate::specs::CheckAndField::check_octets))]
pub fn check(dictionary: &[u8], message: &[u8]) -> Result<Counts, Fault>
    ensures { checked result ≡ check_octets dictionary.now message.now }
{
    check_under(&Records { octets: dictionary }, message)
}

// The check under a dictionary that was loaded.
#[tactic(auto, unfolding(crate::specs::CheckAndField::check_loaded))]
pub fn check_loaded(d: Dictionary, message: &[u8]) -> Result<Counts, Fault>
    ensures { checked result ≡ check_loaded d message.now }
{
    check_under(&d, message)
}

// Returns the k-th field, from 0, of a message under the octets of a dictionary: the check's refusal, or Absent where there is no such field, or
// the field.
#[tactic(auto, unfolding(crate::specs::CheckAndField::field_octets))]
pub fn field(dictionary: &[u8], message: &[u8], k: u64) -> Result<Field, Fault>
    ensures { field_answer result ≡ field_octets dictionary.now message.now k }
{
    field_under(&Records { octets: dictionary }, message, k)
}

// The same under a dictionary that was loaded.
#[tactic(auto, unfolding(crate::specs::CheckAndField::field_loaded))]
pub fn field_loaded(d: Dictionary, message: &[u8], k: u64) -> Result<Field, Fault>
    ensures { field_answer result ≡ field_loaded d message.now k }
{
    field_under(&d, message, k)
}
