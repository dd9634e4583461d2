// Reading octets: numbers, signed numbers and control parts. Each public function accepts every slice and returns what a definition of
// crate octets says, and whether the octets are the shortest form of it.
#![tactic(auto)]

ghost use Rattle.std.specs.Prelude.{◌≡◌, ◌∷◌, ◌+◌, ◌<◌, ◌≤◌, ◌^◌, leb, length, take, drop, pos, neg_ℤ};
ghost use Rattle.octets.specs.Number.{big_endian};
ghost use Rattle.octets.specs.internal.Bounded.{unsigned, signed};
ghost use Rattle.octets.specs.Signed.{lowest};
ghost use Rattle.octets.specs.Short.{short_uint, short_int, short_control};
ghost use Rattle.octets.specs.internal.Least.{least_of_lead, least_leads};
ghost use Rattle.octets.specs.ControlPart.{tag_code, length_code};
ghost use Rattle.octets.specs.Control.{control as control-of, control_of, following, coded};
ghost use Rattle.octets.specs.declared.Control.TheVariants.{Whole};

use octets::{Control, ReadControl, ReadInt, ReadUint};

#[tactic(auto, using(crate::proofs::Numbers::turns))]
// Returns the value of the octets up to and including that at i, given the value v of those before it. With at most eight octets it
// cannot overflow.
fn one_more(s: &[u8], i: usize, v: u64) -> u64
    requires i_in_bounds { (i < length s.now) × (length s.now ≤ 8) }
    requires v_value { v ≡ big_endian (take i s.now) }
    ensures { result ≡ big_endian (take (i + 1) s.now) }
{
    v * 256 + u64::from(s[i])
}

// Returns the big-endian value of at most eight octets.
#[tactic(auto, using(crate::proofs::Numbers::turns))]
fn big_endian(s: &[u8]) -> u64
    requires { length s.now ≤ 8 }
    ensures { result ≡ big_endian s.now }
{
    let mut v: u64 = 0;
    for x in s {
        v = v * 256 + u64::from(*x);
    }
    v
}

// Returns the unsigned number that at most eight octets hold, 0 for more octets.
fn uint_value(s: &[u8]) -> u64
    ensures { result ≡ unsigned s.now }
{
    if s.len() <= 8 { big_endian(s) } else { 0 }
}

// Reads an unsigned number from at most eight octets; the value of more octets is 0. They are the shortest form if the number needs all of
// them.
pub fn uint(s: &[u8]) -> ReadUint
    ensures value_value { result.value ≡ unsigned s.now }
    ensures shortest_value { result.shortest ≡ short_uint s.now }
{
    let value = uint_value(s);
    ReadUint {
        value,
        shortest: s.len() as u64 <= octets_least::uint_least(value).width,
    }
}

// Returns minus k. Subtracting one first keeps every intermediate value in range when k is 2^63.
fn minus(k: u64) -> i64
    requires { (0 < k) × (k ≤ 2 ^ 63) }
    ensures { result ≡ neg_ℤ (pos k) }
{
    let d = (k - 1) as i64;
    -1 - d
}

// Returns the number of n octets of which only the sign bit is set.
fn sign_bit(n: usize) -> u64
    requires { (0 < n) × (n ≤ 8) }
    ensures { result ≡ lowest n }
{
    1u64 << (8 * n - 1)
}

// Returns the signed number that at most eight octets hold, 0 for more octets. With the sign set, a magnitude of 0 means the lowest
// number: there is no minus zero.
fn int_value(s: &[u8]) -> i64
    ensures { result ≡ signed s.now }
{
    let n = s.len();
    if n > 8 {
        return 0;
    }
    if n == 0 {
        return 0;
    }
    let v = big_endian(s);
    if s[0] < 128 {
        return v as i64;
    }
    let low = sign_bit(n);
    let m = v - low;
    if m == 0 { minus(low) } else { minus(m) }
}

// Reads a signed number from at most eight octets; the value of more octets is 0. They are the shortest form if the number needs all of
// them.
pub fn int(s: &[u8]) -> ReadInt
    ensures value_value { result.value ≡ signed s.now }
    ensures shortest_value { result.shortest ≡ short_int s.now }
{
    let value = int_value(s);
    ReadInt {
        value,
        shortest: s.len() as u64 <= octets_least::int_least(value).width,
    }
}

// Returns how many octets of a tag follow its lead: one after 14, two after 15.
fn tag_width(t: u64) -> usize
    requires { t < 16 }
    ensures value { result ≡ following tag_code t }
    ensures upper_bound { result ≤ 8 }
{
    if t < 14 {
        return 0;
    }
    (t - 13) as usize
}

// Returns how many octets of a length follow its lead: one after 12, and twice as many for each higher lead.
fn length_width(l: u64) -> usize
    requires { l < 16 }
    ensures value { result ≡ following length_code l }
    ensures upper_bound { result ≤ 8 }
{
    if l < 12 {
        return 0;
    }
    1usize << (l - 12)
}

// Returns the tag that a lead and the octets after it encode, and whether the lead is that of its shortest form. For one or two octets a loop
// would be slower.
fn tag_value(t: u64, s: &[u8]) -> ReadUint
    requires { (t < 16) × (length s.now ≡ following tag_code t) }
    ensures value_value { result.value ≡ coded tag_code t s.now }
    ensures shortest_value { result.shortest ≡ leb (least_of_lead tag_code t) result.value }
{
    if t < 14 {
        return ReadUint {
            value: t,
            shortest: true,
        };
    }
    let a = one_more(s, 0, 0);
    if t == 14 {
        return ReadUint {
            value: a,
            shortest: 14 <= a,
        };
    }
    let b = one_more(s, 1, a);
    ReadUint {
        value: b,
        shortest: 0x100 <= b,
    }
}

// Returns the value of eight octets, given the value v of the first four.
fn four_more(s: &[u8], v: u64) -> u64
    requires s_len { length s.now ≡ 8 }
    requires v_value { v ≡ big_endian (take 4 s.now) }
    ensures { result ≡ big_endian s.now }
{
    let a = one_more(s, 4, v);
    let b = one_more(s, 5, a);
    let c = one_more(s, 6, b);
    one_more(s, 7, c)
}

// Returns the length that a lead and the octets after it encode, and whether the lead is that of its shortest form.
fn length_value(l: u64, s: &[u8]) -> ReadUint
    requires { (l < 16) × (length s.now ≡ following length_code l) }
    ensures value_value { result.value ≡ coded length_code l s.now }
    ensures shortest_value { result.shortest ≡ leb (least_of_lead length_code l) result.value }
{
    if l < 12 {
        return ReadUint {
            value: l,
            shortest: true,
        };
    }
    let a = one_more(s, 0, 0);
    if l == 12 {
        return ReadUint {
            value: a,
            shortest: 12 <= a,
        };
    }
    let b = one_more(s, 1, a);
    if l == 13 {
        return ReadUint {
            value: b,
            shortest: 0x100 <= b,
        };
    }
    let c = one_more(s, 2, b);
    let d = one_more(s, 3, c);
    if l == 14 {
        return ReadUint {
            value: d,
            shortest: 0x1_0000 <= d,
        };
    }
    let e = four_more(s, d);
    ReadUint {
        value: e,
        shortest: 0x1_0000_0000 <= e,
    }
}

// Reads a control part, given its two leads and the octets after the control octet.
fn after_leads(t: u64, l: u64, s: &[u8]) -> ReadControl
    requires { (t < 16) × (l < 16) }
    ensures control_value { result.control ≡ control_of t l s.now }
    ensures shortest_value { result.shortest ≡ least_leads t l (control_of t l s.now) }
{
    let n = tag_width(t);
    let e = n + length_width(l);
    if s.len() < e {
        return ReadControl {
            control: Control::Partial,
            shortest: false,
        };
    }
    let tag = tag_value(t, &s[0..n]);
    let length = length_value(l, &s[n..e]);
    ReadControl {
        control: Control::Whole {
            tag: tag.value,
            length: length.value,
            size: 1 + (e as u64),
        },
        shortest: tag.shortest && length.shortest,
    }
}

// Reads a control part, given its first octet and the octets after it.
pub fn control_after(c: u8, s: &[u8]) -> ReadControl
    ensures control_value { result.control ≡ control-of (c ∷ s.now) }
    ensures shortest_value { result.shortest ≡ short_control (c ∷ s.now) }
{
    after_leads(u64::from(c >> 4), u64::from(c & 15), s)
}

// Reads the control part at the start of octets. Most have one octet, so that case is tested first.
pub fn control(s: &[u8]) -> ReadControl
    ensures control_value { result.control ≡ control-of s.now }
    ensures shortest_value { result.shortest ≡ short_control s.now }
{
    if s.len() == 0 {
        return ReadControl {
            control: Control::Absent,
            shortest: false,
        };
    }
    let c = s[0];
    let t = u64::from(c >> 4);
    let l = u64::from(c & 15);
    if t < 14 && l < 12 {
        return ReadControl {
            control: Control::Whole {
                tag: t,
                length: l,
                size: 1,
            },
            shortest: true,
        };
    }
    control_after(c, &s[1..])
}

// A control part of two octets, and whether they are its shortest form.
fn of_two(tag: u64, length: u64, shortest: bool) -> ReadControl
    ensures control_value { result.control ≡ Whole tag length 2 }
    ensures shortest_value { result.shortest ≡ shortest }
{
    ReadControl {
        control: Control::Whole {
            tag,
            length,
            size: 2,
        },
        shortest,
    }
}

// Reads the control part at an offset. The check passes most control parts of one octet without it, so there is no test for them here. Those of
// two octets, with the tag or the length in the second, are read here, because `control_after` takes longer.
pub fn control_at(s: &[u8], i: usize) -> ReadControl
    ensures control_value { result.control ≡ control-of (drop i s.now) }
    ensures shortest_value { result.shortest ≡ short_control (drop i s.now) }
{
    if s.len() <= i {
        return ReadControl {
            control: Control::Absent,
            shortest: false,
        };
    }
    let c = s[i];
    if 2 <= s.len() - i {
        if 0xe0 <= c && c < 0xec {
            let tag = u64::from(s[i + 1]);
            return of_two(tag, u64::from(c & 15), 14 <= tag);
        }
        if c < 0xe0 && c & 15 == 12 {
            let length = u64::from(s[i + 1]);
            return of_two(u64::from(c >> 4), length, 12 <= length);
        }
    }
    control_after(c, &s[i + 1..])
}
