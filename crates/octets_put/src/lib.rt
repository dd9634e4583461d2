// Storing numbers and control parts into a lent buffer. Octets that do not fit are not stored.
#![tactic(auto)]

ghost use Rattle.std.specs.Prelude.{◌≡◌, ◌+◌, ◌≤◌, length as length-of};
ghost use Rattle.octets.specs.Number.{octets_of};
ghost use Rattle.octets.specs.Control.{least_control};
ghost use Rattle.octets_store.specs.Store.{stored};

// Stores the last n octets of v in big-endian order; octets above the last eight are zeros. The loop runs from the last octet back.
#[tactic(auto, using(crate::proofs::Digits::ended_down))]
fn put_big_endian(out: &mut [u8], at: usize, n: usize, v: u64)
    requires { at + n ≤ length-of out.old }
    ensures { out.new ≡ stored out.old at (octets_of n v) }
{
    let mut rest = v;
    for i in (0..n).rev() {
        out[at + i] = (rest % 256) as u8;
        rest /= 256;
    }
}

// Stores the last `width` octets of v, the most significant first.
pub fn put_number(out: &mut [u8], at: usize, width: u64, v: u64)
    ensures { out.new ≡ stored out.old at (octets_of width v) }
{
    let n = width as usize;
    if octets_store::has_room(out.len(), at, n) {
        put_big_endian(out, at, n, v);
    }
}

// Returns how many octets the least control part of a tag and a length has.
pub fn control_size(tag: u16, length: u64) -> usize
    ensures { result ≡ length-of (least_control tag length) }
{
    let c = octets_least::control_least(tag, length);
    (1 + c.tag_width + c.length_width) as usize
}

// Stores the least control part of a tag and a length.
pub fn put_control(out: &mut [u8], at: usize, tag: u16, length: u64)
    ensures { out.new ≡ stored out.old at (least_control tag length) }
{
    let c = octets_least::control_least(tag, length);
    let size = control_size(tag, length);
    if octets_store::has_room(out.len(), at, size) {
        out[at] = c.octet;
        put_number(out, at + 1, c.tag_width, tag as u64);
        let after = at + 1 + (c.tag_width as usize);
        put_number(out, after, c.length_width, length);
    }
}
