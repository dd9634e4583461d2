// Prints the lines of a message. Internal: the caller has checked the message.
ghost use Rattle.std.specs.Prelude.{◌≡◌, [], ◌≤◌, length};
ghost use Rattle.octets.specs.Number.{big_endian as number_of_lem};
ghost use Rattle.octets.specs.Signed.{integer};
ghost use Rattle.reading.specs.Reading.{depth_limit};
ghost use Rattle.table_index.specs.internal.Cells.{indexed};
ghost use Rattle.message.specs.Cut.{Contents};
ghost use Rattle.message.specs.internal.Accepts.{Accepts};
ghost use Rattle.message.specs.Tree.{value as value_of_lem};
ghost use Rattle.text_window.specs.Ascii.{ascii};
ghost use Rattle.text_window.specs.Digits.{decimal, signed_decimal};
ghost use Rattle.text_window.specs.Window.{Prints};
ghost use Rattle.text_message.specs.Text.{kind_name, value_text, line};
ghost use Rattle.text_message.specs.internal.OfTree.{depth_and_tag, direct_of, lines_of};

use message_field::Head;
use table::Meaning;
use text_window::Window;

// Returns the name of a kind. The callers pass no message; for one it would be `raw`.
fn kind_name(kind: Meaning) -> &'static [u8]
    ensures { result.now ≡ kind_name (value_of_lem kind []) }
{
    match kind {
        Meaning::Uint => b"uint",
        Meaning::Int => b"int",
        Meaning::String => b"string",
        Meaning::Text => b"text",
        _ => b"raw",
    }
}

// Prints the start of a field's line, up to the kind.
fn depth_and_tag(w: &mut Window, depth: u64, tag: u64)
    ensures { Prints w.old (depth_and_tag depth tag) w.new }
{
    w.decimal(depth);
    w.put(b' ');
    w.four_digits(tag);
    w.put(b' ');
}

// Prints the value of a uint.
fn uint(w: &mut Window, s: &[u8])
    requires { length s.now ≤ 8 }
    ensures { Prints w.old (decimal (number_of_lem s.now)) w.new }
{
    let v = octets_read::uint(s).value;
    w.decimal(v);
}

// Prints the value of an int.
fn int(w: &mut Window, s: &[u8])
    requires { length s.now ≤ 8 }
    ensures { Prints w.old (signed_decimal (integer s.now)) w.new }
{
    let v = octets_read::int(s).value;
    w.signed(v);
}

// Prints the value of a field that is not a message.
fn value(w: &mut Window, kind: Meaning, s: &[u8])
    requires { Contents kind s.now }
    ensures { Prints w.old (value_text (value_of_lem kind s.now)) w.new }
{
    match kind {
        Meaning::Uint => uint(w, s),
        Meaning::Int => int(w, s),
        _ => w.hex_or_dash(s),
    }
}

// Prints the line of a field that is not a message.
fn leaf_line(w: &mut Window, depth: u64, tag: u64, kind: Meaning, s: &[u8])
    requires { Contents kind s.now }
    ensures { Prints w.old (line depth tag (kind_name (value_of_lem kind s.now)) (value_text (value_of_lem kind s.now))) w.new }
{
    depth_and_tag(w, depth, tag);
    w.octets(kind_name(kind));
    w.put(b' ');
    value(w, kind, s);
    w.put(b'\n');
}

// Returns the count of a message's direct fields.
// Kept: the next field begins where this one ends. An iterator over fields would need a contract of its own, and serve two short loops.
fn direct(cells: &[u32; 128], number: u64, s: &[u8]) -> u64
    requires { Accepts (indexed cells.now) depth_limit number s.now }
    ensures { result ≡ direct_of (indexed cells.now) number s.now }
{
    let mut i: usize = 0;
    let mut n: u64 = 0;
    while let Some(Head { end, .. }) = message_field::field_at(s, i) {
        i = end;
        n += 1;
    }
    n
}

// Prints the line of a field that holds a message of a number. Its value is the count of that message's direct fields.
fn message_line(w: &mut Window, cells: &[u32; 128], depth: u64, tag: u64, number: u64, s: &[u8])
    requires { Accepts (indexed cells.now) depth_limit number s.now }
    ensures { Prints w.old (line depth tag (ascii "message") (decimal (direct_of (indexed cells.now) number s.now))) w.new }
{
    depth_and_tag(w, depth, tag);
    w.octets(b"message ");
    w.decimal(direct(cells, number, s));
    w.put(b'\n');
}

// Prints the lines of a message of a number that may be `levels` messages deep, itself included. The lines of a nested message follow the
// line of its field.
// Kept: a loop over offsets, as in `direct`.
pub(crate) fn write(w: &mut Window, cells: &[u32; 128], number: u64, levels: u64, s: &[u8])
    requires levels_le_depth_limit { levels ≤ depth_limit }
    requires accepts { Accepts (indexed cells.now) levels number s.now }
    ensures { Prints w.old (lines_of (indexed cells.now) levels number s.now) w.new }
{
    let mut i: usize = 0;
    while let Some(Head { tag, start, end }) = message_field::field_at(s, i) {
        let contents = &s[start..end];
        let depth = 9 - levels;
        i = end;
        match table_index::find(cells, number, tag) {
            Meaning::Message(m) => {
                message_line(w, cells, depth, tag, m, contents);
                write(w, cells, m, levels - 1, contents);
            }
            kind => leaf_line(w, depth, tag, kind, contents),
        }
    }
}
