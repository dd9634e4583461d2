// The least forms of numbers, signed numbers and control parts: how many octets they have, and their value.
#![tactic(auto)]

ghost use Rattle.std.specs.Prelude.{◌≡◌, ◌<◌, ◌≤◌, ◌^◌, negsuc};
ghost use Rattle.octets.specs.Number.{width as width_of_lem};
ghost use Rattle.octets.specs.internal.Least.{uint_width_bits, int_width_bits, control_widths};
ghost use Rattle.octets.specs.Signed.{lowest};
ghost use Rattle.octets.specs.ControlPart.{tag_code, length_code};
ghost use Rattle.octets_least.specs.internal.Lead.{LeastLead};

use octets::{Least, LeastControl};

// Returns how many octets a number needs. It has 64 bits less its leading zeros; adding 7 rounds up to whole octets.
fn width(v: u64) -> u64
    ensures { result ≡ width_of_lem v }
{
    ((71 - u64::leading_zeros(v)) / 8) as u64
}

// Returns the least octets of an unsigned number.
pub fn uint_least(v: u64) -> Least
    ensures { result ≡ uint_width_bits v }
{
    Least {
        width: width(v),
        bits: v,
    }
}

// Returns the least octets of the negative number with the magnitude k + 1. Doubling makes room for the sign bit: k has to fit beside it, not
// k + 1, because n octets also hold minus 2 ^ (8 * n - 1), of which only the sign bit is set. The mask clears the magnitude if it equals the sign bit.
fn least_below(k: u64) -> Least
    requires { k < 2 ^ 63 }
    ensures { result ≡ int_width_bits (negsuc k) }
{
    let n = width(2 * k + 1);
    let low = 1u64 << (8 * n - 1);
    Least {
        width: n,
        bits: low + ((k + 1) & (low - 1)),
    }
}

// Returns the least octets of a signed number. Doubling makes room for the sign bit.
pub fn int_least(z: i64) -> Least
    ensures { result ≡ int_width_bits z }
{
    if z < 0 {
        return least_below(numbers::below_zero(z));
    }
    let v = z as u64;
    Least {
        width: width(2 * v),
        bits: v,
    }
}

// A lead, and the number of octets that follow it.
#[derive(Clone, Copy)]
struct Lead {
    octet: u8,
    width: u64,
}

// Returns the least form of a tag.
fn tag_lead(tag: u16) -> Lead
    ensures { LeastLead tag_code tag result.octet result.width }
{
    if tag < 14 {
        return Lead {
            octet: tag as u8,
            width: 0,
        };
    }
    if tag < 0x100 {
        return Lead {
            octet: 14,
            width: 1,
        };
    }
    Lead {
        octet: 15,
        width: 2,
    }
}

// Returns the least form of a length.
fn length_lead(length: u64) -> Lead
    ensures { LeastLead length_code length result.octet result.width }
{
    if length < 12 {
        return Lead {
            octet: length as u8,
            width: 0,
        };
    }
    if length < 0x100 {
        return Lead {
            octet: 12,
            width: 1,
        };
    }
    if length < 0x1_0000 {
        return Lead {
            octet: 13,
            width: 2,
        };
    }
    if length < 0x1_0000_0000 {
        return Lead {
            octet: 14,
            width: 4,
        };
    }
    Lead {
        octet: 15,
        width: 8,
    }
}

// Returns the least control part of a tag and a length.
pub fn control_least(tag: u16, length: u64) -> LeastControl
    ensures { result ≡ control_widths tag length }
{
    let t = tag_lead(tag);
    let l = length_lead(length);
    let high = t.octet;
    let low = l.octet;
    LeastControl {
        octet: (high << 4) + low,
        tag_width: t.width,
        length_width: l.width,
    }
}
