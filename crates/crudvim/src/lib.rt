// The C library. Each function passes its arguments to the Rattle function that does the work. It returns the refusal, 0 if the call is
// accepted, and stores the rest of the result through the pointers that the caller passes. include/crudvim.h has the C prototypes.
#![tactic(auto)]

pub mod writer;

ghost use Rattle.std.specs.Prelude.{◌≡◌, length};
ghost use Rattle.message_calls.specs.Calls.{check_octets, short_octets, shorten_octets, shorten_buffer, lookup_octets, lookup_last_octets};
ghost use Rattle.message_frame.specs.Frame.{frame_read, frame_written, frame_stored};
ghost use Rattle.tib_msg.specs.CheckAndField.{check as tibmsg-check, field as tibmsg-field};
ghost use Rattle.tib_rv.specs.CheckAndField.{check as tibrv-check, field as tibrv-field};
ghost use Rattle.tib_qform.specs.CheckAndField.{check_octets as qform-check, field_octets as qform-field};
ghost use Rattle.tib_real.specs.FromOctets.{with_bits};
ghost use Rattle.tib_real.specs.InFractions.{fractions_of};
ghost use Rattle.tib_decimals.specs.InDecimals.{decimals_of};
ghost use Rattle.crudvim.specs.Fields.{flag as flag-of, flagged, parts, hint as hint_of};

use message_calls::{CheckedMessage, Found, Shortened};
use message_frame::{FrameRead, FrameWritten};
use reading::Checked;
use tib_qform::types::FieldAnswer;
use tib_real::types::WholeNumber;

// Checks a message.
#[unsafe(no_mangle)]
pub extern "C" fn crudvim_check(
    table: &[u8],
    revision: u64,
    number: u64,
    message: &[u8],
    place: &mut u64,
    fields: &mut u64,
    depth: &mut u64,
    shortest: &mut u64,
) -> u64
    ensures message_value { check_octets table.now revision number message.now ≡ record { refusal = result; place = place.new; fields = fields.new; depth = depth.new } }
    ensures shortest_after { shortest.new ≡ flag-of (short_octets table.now revision number message.now) }
{
    let c = CheckedMessage::from(message_calls::check(table, revision, number, message));
    let checked = c.checked;
    *place = checked.place;
    *fields = checked.fields;
    *depth = checked.depth;
    *shortest = u64::from(c.shortest);
    checked.refusal
}

// Writes the shortest form of a message into `out`.
#[unsafe(no_mangle)]
pub extern "C" fn crudvim_shorten(
    table: &[u8],
    revision: u64,
    number: u64,
    message: &[u8],
    out: &mut [u8],
    place: &mut u64,
    len: &mut u64,
) -> u64
    ensures out_value { shorten_octets table.now revision number message.now out.old ≡ record { refusal = result; place = place.new; length = len.new } }
    ensures out_after { out.new ≡ shorten_buffer table.now revision number message.now out.old }
{
    let shortened = Shortened::from(message_calls::shorten(table, revision, number, message, out));
    *place = shortened.place;
    *len = shortened.length;
    shortened.refusal
}

// Finds the message in the frame at the front of a buffer.
#[unsafe(no_mangle)]
pub extern "C" fn crudvim_frame_read(
    buffer: &[u8],
    place: &mut u64,
    start: &mut u64,
    end: &mut u64,
) -> u64
    ensures { frame_read buffer.now ≡ record { refusal = result; place = place.new; start = start.new; end = end.new } }
{
    let read = FrameRead::from(message_frame::frame_read(buffer));
    *place = read.place;
    *start = read.start;
    *end = read.end;
    read.refusal
}

// Writes a message in a frame into `out`.
#[unsafe(no_mangle)]
pub extern "C" fn crudvim_frame_write(
    message: &[u8],
    out: &mut [u8],
    place: &mut u64,
    len: &mut u64,
) -> u64
    ensures out_value { frame_written message.now (length out.old) ≡ record { refusal = result; place = place.new; length = len.new } }
    ensures out_after { out.new ≡ frame_stored message.now out.old }
{
    let written = FrameWritten::from(message_frame::frame_write(message, out));
    *place = written.place;
    *len = written.length;
    written.refusal
}

// Looks up the k-th field with a tag, from 0.
#[unsafe(no_mangle)]
pub extern "C" fn crudvim_lookup(
    table: &[u8],
    revision: u64,
    number: u64,
    message: &[u8],
    tag: u64,
    k: u64,
    place: &mut u64,
    kind: &mut u64,
    value: &mut u64,
    signed_value: &mut i64,
    start: &mut u64,
    len: &mut u64,
) -> u64
    ensures { lookup_octets table.now revision number message.now tag k ≡ record { refusal = result; place = place.new; kind = kind.new; value = value.new; signed = signed_value.new; start = start.new; length = len.new } }
{
    let found = Found::from(message_calls::lookup(table, revision, number, message, tag, k));
    *place = found.place;
    *kind = found.kind;
    *value = found.value;
    let signed = found.signed;
    *signed_value = signed;
    *start = found.start;
    *len = found.length;
    found.refusal
}

// Looks up the last field with a tag.
#[unsafe(no_mangle)]
pub extern "C" fn crudvim_lookup_last(
    table: &[u8],
    revision: u64,
    number: u64,
    message: &[u8],
    tag: u64,
    place: &mut u64,
    kind: &mut u64,
    value: &mut u64,
    signed_value: &mut i64,
    start: &mut u64,
    len: &mut u64,
) -> u64
    ensures { lookup_last_octets table.now revision number message.now tag ≡ record { refusal = result; place = place.new; kind = kind.new; value = value.new; signed = signed_value.new; start = start.new; length = len.new } }
{
    let last = Found::from(message_calls::lookup_last(table, revision, number, message, tag));
    *place = last.place;
    *kind = last.kind;
    *value = last.value;
    let signed = last.signed;
    *signed_value = signed;
    *start = last.start;
    *len = last.length;
    last.refusal
}

// Checks a TibMsg message.
#[unsafe(no_mangle)]
pub extern "C" fn crudvim_tibmsg_check(
    message: &[u8],
    place: &mut u64,
    fields: &mut u64,
    depth: &mut u64,
) -> u64
    ensures { tibmsg-check message.now ≡ record { refusal = result; place = place.new; fields = fields.new; depth = depth.new } }
{
    let msg = Checked::from(tib_msg::check(message));
    *place = msg.place;
    *fields = msg.fields;
    *depth = msg.depth;
    msg.refusal
}

// Returns the k-th field, from 0, of a TibMsg message.
#[unsafe(no_mangle)]
pub extern "C" fn crudvim_tibmsg_field(
    message: &[u8],
    k: u64,
    place: &mut u64,
    name_start: &mut u64,
    name_length: &mut u64,
    kind: &mut u64,
    data_start: &mut u64,
    data_length: &mut u64,
    hinted: &mut u64,
    hint_kind: &mut u64,
    hint: &mut u64,
    real_bits: &mut u64,
) -> u64
    ensures k_value { parts (tibmsg-field message.now k) ≡ record { refusal = result; place = place.new; name_start = name_start.new; name_length = name_length.new; kind = kind.new; data_start = data_start.new; data_length = data_length.new } }
    ensures k_value_2 { hint_of (tibmsg-field message.now k) ≡ record { hinted = hinted.exit.now; kind = hint_kind.new; value = hint.new; bits = real_bits.new } }
{
    let field = tib_field::FieldAnswer::from(tib_msg::field(message, k));
    *place = field.place;
    *name_start = field.name_place;
    *name_length = field.name_length;
    *kind = field.kind;
    *data_start = field.data_place;
    *data_length = field.data_length;
    *hinted = u64::from(field.hinted);
    *hint_kind = field.hint_kind;
    *hint = field.hint;
    *real_bits = field.real.bits;
    field.refusal
}

// Checks a TibrvMsg message.
#[unsafe(no_mangle)]
pub extern "C" fn crudvim_tibrv_check(
    message: &[u8],
    place: &mut u64,
    fields: &mut u64,
    depth: &mut u64,
) -> u64
    ensures { tibrv-check message.now ≡ record { refusal = result; place = place.new; fields = fields.new; depth = depth.new } }
{
    let rv = Checked::from(tib_rv::check(message));
    *place = rv.place;
    *fields = rv.fields;
    *depth = rv.depth;
    rv.refusal
}

// Returns the k-th outermost field, from 0, of a TibrvMsg message.
#[unsafe(no_mangle)]
pub extern "C" fn crudvim_tibrv_field(
    message: &[u8],
    k: u64,
    place: &mut u64,
    name_start: &mut u64,
    name_length: &mut u64,
    kind: &mut u64,
    data_start: &mut u64,
    data_length: &mut u64,
) -> u64
    ensures { parts (tibrv-field message.now k) ≡ record { refusal = result; place = place.new; name_start = name_start.new; name_length = name_length.new; kind = kind.new; data_start = data_start.new; data_length = data_length.new } }
{
    let outer = tib_field::FieldAnswer::from(tib_rv::field(message, k));
    *place = outer.place;
    *name_start = outer.name_place;
    *name_length = outer.name_length;
    *kind = outer.kind;
    *data_start = outer.data_place;
    *data_length = outer.data_length;
    outer.refusal
}

// Checks a QForm message under a dictionary.
#[unsafe(no_mangle)]
pub extern "C" fn crudvim_qform_check(
    dictionary: &[u8],
    message: &[u8],
    place: &mut u64,
    fields: &mut u64,
    depth: &mut u64,
) -> u64
    ensures { qform-check dictionary.now message.now ≡ record { refusal = result; place = place.new; fields = fields.new; depth = depth.new } }
{
    let qform = Checked::from(tib_qform::check(dictionary, message));
    *place = qform.place;
    *fields = qform.fields;
    *depth = qform.depth;
    qform.refusal
}

// Returns the k-th field, from 0, of a QForm message under a dictionary.
#[unsafe(no_mangle)]
pub extern "C" fn crudvim_qform_field(
    dictionary: &[u8],
    message: &[u8],
    k: u64,
    place: &mut u64,
    fid: &mut u64,
    kind: &mut u64,
    data_start: &mut u64,
    data_length: &mut u64,
) -> u64
    ensures { qform-field dictionary.now message.now k ≡ record { refusal = result; place = place.new; fid = fid.new; kind = kind.new; data_place = data_start.new; data_length = data_length.new } }
{
    let kth = FieldAnswer::from(tib_qform::field(dictionary, message, k));
    *place = kth.place;
    *fid = kth.fid;
    *kind = kth.kind;
    *data_start = kth.data_place;
    *data_length = kth.data_length;
    kth.refusal
}

// Reads a real in fractions. The real is passed by its bits; `hinted` is 0 if it has no hint.
#[unsafe(no_mangle)]
pub extern "C" fn crudvim_fractions(
    real_bits: u64,
    hinted: u64,
    hint: u64,
    place: &mut u64,
    whole: &mut i64,
) -> u64
    ensures { fractions_of (with_bits real_bits hint (flagged hinted)) ≡ record { refusal = result; place = place.new; value = whole.new } }
{
    let real = tib_real::with_bits(real_bits, hint, hinted != 0);
    let fractions = WholeNumber::from(tib_real::fractions(real));
    *place = fractions.place;
    let value = fractions.value;
    *whole = value;
    fractions.refusal
}

// Reads a real in decimals. The real is passed by its bits; `hinted` is 0 if it has no hint.
#[unsafe(no_mangle)]
pub extern "C" fn crudvim_decimals(
    real_bits: u64,
    hinted: u64,
    hint: u64,
    place: &mut u64,
    whole: &mut i64,
) -> u64
    ensures { decimals_of (with_bits real_bits hint (flagged hinted)) ≡ record { refusal = result; place = place.new; value = whole.new } }
{
    let number = tib_real::with_bits(real_bits, hint, hinted != 0);
    let decimals = WholeNumber::from(tib_decimals::decimals(number));
    *place = decimals.place;
    let nearest = decimals.value;
    *whole = nearest;
    decimals.refusal
}
