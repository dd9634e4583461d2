// The writer. The caller keeps the state between calls, in an array of numbers.
ghost use Rattle.std.specs.Prelude.{◌≡◌, [], length as length-of};
ghost use Rattle.writer_state.specs.Call.{put_uint, put_int, put_octets, open_field, close_field};
ghost use Rattle.writer_state.specs.Results.{written};
ghost use Rattle.writer_words.specs.Words.{array_after, start_words, call_words, call_buffer, finish_words};

use reading::{Fault, Refusal};
use writer_state::{State, Written};

// Stores the state after an accepted call between start and finish. Says the place and returns the refusal.
fn answered(given: State, answer: Result<State, Fault>, state: &mut [u64], place: &mut u64) -> u64
    ensures refusal { result ≡ (written given answer).refusal }
    ensures place_after { place.new ≡ (written given answer).place }
    ensures state_after { state.new ≡ array_after state.old (written given answer) }
{
    let w = Written::of(given, answer);
    writer_words::store_accepted(state, w);
    *place = w.place;
    w.refusal
}

// Starts a message at the end of a buffer. An array of another length is cleared and refused.
#[unsafe(no_mangle)]
pub extern "C" fn crudvim_start(
    table: &[u8],
    revision: u64,
    number: u64,
    buffer: &[u8],
    state: &mut [u64],
    place: &mut u64,
) -> u64
    ensures { start_words table.now revision number (length-of buffer.now) state.old ≡ record { refusal = result; place = place.new; array = state.new } }
{
    if state.len() != writer_words::STATE_WORDS {
        writer_words::clear(state);
        *place = 0;
        return Refusal::State.number();
    }
    let started = writer_state::by_octets::start_by_octets(table, revision, number, buffer);
    let w = Written::of(writer_state::zeros(), started);
    writer_words::store(state, w.state);
    *place = w.place;
    w.refusal
}

// Puts a uint field before the fields that were put earlier.
#[unsafe(no_mangle)]
pub extern "C" fn crudvim_put_uint(
    table: &[u8],
    state: &mut [u64],
    tag: u64,
    value: u64,
    buffer: &mut [u8],
    place: &mut u64,
) -> u64
    ensures value_value { call_words table.now state.old buffer.old (put_uint tag value) ≡ record { refusal = result; place = place.new; array = state.new } }
    ensures buffer_after { buffer.new ≡ call_buffer table.now state.old buffer.old (put_uint tag value) }
{
    let given = writer_words::state_of(state);
    let put_uint = writer_put::by_octets::put_uint_by_octets(table, given, tag, value, buffer);
    answered(given, put_uint, state, place)
}

// Puts an int field.
#[unsafe(no_mangle)]
pub extern "C" fn crudvim_put_int(
    table: &[u8],
    state: &mut [u64],
    tag: u64,
    value: i64,
    buffer: &mut [u8],
    place: &mut u64,
) -> u64
    ensures value_value { call_words table.now state.old buffer.old (put_int tag value) ≡ record { refusal = result; place = place.new; array = state.new } }
    ensures buffer_after { buffer.new ≡ call_buffer table.now state.old buffer.old (put_int tag value) }
{
    let given = writer_words::state_of(state);
    let put_int = writer_put::by_octets::put_int_by_octets(table, given, tag, value, buffer);
    answered(given, put_int, state, place)
}

// Puts a string or a text field.
#[unsafe(no_mangle)]
pub extern "C" fn crudvim_put_octets(
    table: &[u8],
    state: &mut [u64],
    tag: u64,
    octets: &[u8],
    buffer: &mut [u8],
    place: &mut u64,
) -> u64
    ensures octets_value { call_words table.now state.old buffer.old (put_octets tag octets.now) ≡ record { refusal = result; place = place.new; array = state.new } }
    ensures buffer_after { buffer.new ≡ call_buffer table.now state.old buffer.old (put_octets tag octets.now) }
{
    let given = writer_words::state_of(state);
    let put_octets = writer_put::by_octets::put_octets_by_octets(table, given, tag, octets, buffer);
    answered(given, put_octets, state, place)
}

// Opens a message field.
#[unsafe(no_mangle)]
pub extern "C" fn crudvim_open(table: &[u8], state: &mut [u64], tag: u64, place: &mut u64) -> u64
    ensures { call_words table.now state.old [] (open_field tag) ≡ record { refusal = result; place = place.new; array = state.new } }
{
    let given = writer_words::state_of(state);
    let opened = writer_nesting::by_octets::open_field_by_octets(table, given, tag);
    answered(given, opened, state, place)
}

// Closes the field that was opened last.
#[unsafe(no_mangle)]
pub extern "C" fn crudvim_close(
    table: &[u8],
    state: &mut [u64],
    buffer: &mut [u8],
    place: &mut u64,
) -> u64
    ensures close_field_value { call_words table.now state.old buffer.old close_field ≡ record { refusal = result; place = place.new; array = state.new } }
    ensures buffer_after { buffer.new ≡ call_buffer table.now state.old buffer.old close_field }
{
    let given = writer_words::state_of(state);
    let closed = writer_nesting::by_octets::close_field_by_octets(table, given, buffer);
    answered(given, closed, state, place)
}

// Finishes a message: says where it starts.
#[unsafe(no_mangle)]
pub extern "C" fn crudvim_finish(state: &[u64], place: &mut u64, start: &mut u64) -> u64
    ensures { finish_words state.now ≡ record { refusal = result; place = place.new; start = start.new } }
{
    match writer_state::finish(writer_words::state_of(state)) {
        Ok(from) => {
            *place = 0;
            *start = from as u64;
            0
        }
        Err(fault) => {
            *place = fault.place;
            *start = 0;
            fault.refusal.number()
        }
    }
}
