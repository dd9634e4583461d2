// The output of the program show: the message in the second frame of its input under the table in the first frame, or the first refusal.
#![tactic(auto)]

ghost use Rattle.std.specs.Prelude.{◌≡◌, length};
ghost use Rattle.message_frame.specs.Frame.{frame_read};
ghost use Rattle.table.specs.declared.Table.{Table};
ghost use Rattle.text_window.specs.Window.{window};
ghost use Rattle.text_show.specs.Output.{second_text, first_text, output};
ghost use Rattle.text_show.specs.internal.Parts.{text_after, text_under, text_of};

use reading::{Fault, Refusal};
use table::Table;

// Returns the message in the second frame. The frame must end where the octets do.
fn second(s: &[u8]) -> Result<&[u8], Fault>
    ensures { (t : Table) → text_under t result ≡ second_text t s.now (frame_read s.now) }
{
    let part = message_frame::frame_read(s)?;
    if part.end != s.len() {
        return Err(Refusal::Size.at(0));
    }
    Ok(&s[part])
}

// Loads the table in the first frame, and returns it and the octets after the frame.
fn first(s: &[u8]) -> Result<(Table, &[u8]), Fault>
    ensures { text_after result ≡ first_text s.now (frame_read s.now) }
{
    let part = message_frame::frame_read(s)?;
    let end = part.end;
    let table = table_index::load(&s[part])?;
    Ok((table, &s[end..]))
}

// Returns the table and the message of the whole input.
fn parts(input: &[u8]) -> Result<(Table, &[u8]), Fault>
    ensures { text_of result ≡ output input.now }
{
    if reading::MESSAGE_LIMIT < input.len() {
        return Err(Refusal::TooLong.at(0));
    }
    let (table, rest) = first(input)?;
    let message = second(rest)?;
    Ok((table, message))
}

// Prints the text for the whole input: copies it from the offset `from` on into `out`, as much of it as fits, and returns its length.
pub fn show(input: &[u8], from: u64, out: &mut [u8]) -> u64
    ensures value { result ≡ length (output input.now) }
    ensures out_after { out.new ≡ window out.old from (output input.now) }
{
    match parts(input) {
        Ok((table, message)) => text_message::message(table, message, from, out),
        Err(fault) => text_message::refusal(fault.refusal.number(), fault.place, from, out),
    }
}
