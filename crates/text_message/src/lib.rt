// Prints a message, field by field, and a refusal as text. The text of a message may be longer than the caller's buffer, so each call
// stores the octets of the text from an offset on.
#![tactic(auto)]

mod lines;

ghost use Rattle.std.specs.Prelude.{◌≡◌, length};
ghost use Rattle.reading.specs.Reading.{depth_limit};
ghost use Rattle.table_index.specs.internal.Cells.{indexed};
ghost use Rattle.text_window.specs.Window.{window, Prints};
ghost use Rattle.text_message.specs.Text.{page as page-of, refusal_text, message_text};
ghost use Rattle.message.specs.internal.Accepts.{Accepts};
ghost use Rattle.text_message.specs.internal.OfTree.{lines_of};

use table::Table;
use text_window::Window;

// The revision of the profile that messages are read under.
const REVISION: u64 = 2;

// Prints a message with number 0. Internal: the caller has checked the message and passes its count of fields.
fn page(w: &mut Window, cells: &[u32; 128], fields: u64, s: &[u8])
    requires { Accepts (indexed cells.now) depth_limit 0 s.now }
    ensures { Prints w.old (page-of (lines_of (indexed cells.now) depth_limit 0 s.now) fields (length s.now)) w.new }
{
    w.octets(b"depth tag kind value\n");
    lines::write(w, cells, 0, reading::DEPTH_LIMIT, s);
    w.octets(b"fields ");
    w.decimal(fields);
    w.octets(b" octets ");
    w.decimal(s.len() as u64);
    w.put(b'\n');
}

// Prints a refusal. Like `message`, it copies the text from the offset `from` on into `out`, as much of it as fits, and returns the length
// of the whole text.
pub fn refusal(refusal: u64, place: u64, from: u64, out: &mut [u8]) -> u64
    ensures value { result ≡ length (refusal_text refusal place) }
    ensures out_after { out.new ≡ window out.old from (refusal_text refusal place) }
{
    let mut w = Window { out, from, at: 0 };
    w.octets(b"refused ");
    w.decimal(refusal);
    w.octets(b" at ");
    w.decimal(place);
    w.put(b'\n');
    w.at
}

// Prints a message with number 0 under a table and revision 2, or the refusal of its check.
pub fn message(t: Table, s: &[u8], from: u64, out: &mut [u8]) -> u64
    ensures value { result ≡ length (message_text t s.now) }
    ensures out_after { out.new ≡ window out.old from (message_text t s.now) }
{
    match message_calls::check_loaded(t, REVISION, 0, s) {
        Err(fault) => refusal(fault.refusal.number(), fault.place, from, out),
        Ok(summary) => {
            let mut cells = [0u32; 128];
            table_index::index_table(&t.words, t.count, REVISION, &mut cells);
            let mut w = Window { out, from, at: 0 };
            page(&mut w, &cells, summary.counts.fields, s);
            w.at
        }
    }
}
