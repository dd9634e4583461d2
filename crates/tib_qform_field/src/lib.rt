// One step of the traversal of a QForm message: measures the field at an offset. This crate also has the definitions of a message and of its
// reading, and the laws between them.
#![tactic(auto)]

ghost use Rattle.std.specs.Prelude.{◌≡◌, drop};
ghost use Rattle.tib_field.specs.internal.Measured.{step_of};
ghost use Rattle.tib_qform_field.specs.Layout.{flagged as flagged-of, fid as fid-of};
ghost use Rattle.tib_qform_field.specs.internal.Octets.{octets_by};

use reading::Refusal;

// Returns whether both flags of a FID are set. They are the top bits of its first octet.
#[tactic(auto, unfolding(crate::specs::Layout::flagged))]
fn flagged(high: u8) -> bool
    ensures { result ≡ flagged-of high }
{
    high >> 6 == 3
}

// Returns the fid: the low 14 bits of the two octets of a FID.
pub fn fid(high: u8, low: u8) -> u64
    ensures { result ≡ fid-of high low }
{
    u64::from(high & 63) * 256 + u64::from(low)
}

// Returns how many octets the field at an offset has, with its FID and its padding, by the cells of a dictionary; 0 at the end of the message.
// The refusal is why there is no whole field.
pub fn field_octets(cells: &[u16; 16384], s: &[u8], at: usize) -> Result<usize, Refusal>
    ensures { step_of result ≡ octets_by cells.now (drop at s.now) }
{
    if s.len() <= at {
        return Ok(0);
    }
    let remaining = s.len() - at;
    if remaining < 2 {
        return Err(Refusal::Cut);
    }
    if !flagged(s[at]) {
        return Err(Refusal::TypeSizeOrHint);
    }
    let half = usize::from(cells[fid(s[at], s[at + 1]) as usize]);
    if half == 0 {
        return Err(Refusal::NotInDictionary);
    }
    if remaining < half * 2 {
        return Err(Refusal::PastTheEnd);
    }
    Ok(half * 2)
}
