// Tests whether octets are text: UTF-8 as RFC 3629 defines it.
#![tactic(auto)]

ghost use Rattle.std.specs.Prelude.{◌≡◌, ◌+◌, ◌<◌, ◌≤◌, not, ◌||◌, ltb, length, drop, if◌then◌else◌, ◌==◌, nat_eq, nat_le, nat_lt, slice_index, MatchOption};
ghost use Rattle.octets.specs.Utf8.{tail};
ghost use Rattle.octets.specs.Text.{text as text_of, within};
ghost use Rattle.octets_text.specs.internal.Plain.{Passed, Left, any_of};
ghost use Rattle.octets_text.specs.internal.Pending.{to_come, next, pending, Judged};
ghost use Rattle.octets_text.specs.internal.Character.{follow, character_size};

// Returns the bitwise or of N octets.
#[tactic(auto, using(crate::proofs::Plain::bits))]
fn any_of<const N: usize>(block: &[u8; N]) -> u8
    ensures { result ≡ any_of block.now 0 N }
{
    let mut any: u8 = 0;
    for x in block {
        any |= *x;
    }
    any
}

// Returns what is left after the blocks of N octets at the front that are all below 0x80.
#[tactic(auto, using(crate::proofs::Plain::blocks))]
fn after_blocks<const N: usize>(s: &[u8]) -> &[u8]
    requires { (0 < N) × (N ≤ 64) }
    ensures { Left s.now result.now }
{
    let mut rest = s;
    while let Some((block, after)) = rest.split_first_chunk::<N>() {
        if 0x80 <= any_of(block) {
            return rest;
        }
        rest = after;
    }
    rest
}

// Returns the offset after octets from `from` on that are below 0x80.
#[tactic(auto, using(crate::proofs::Plain::run))]
fn plain_run(s: &[u8], from: usize) -> usize
    requires { Passed s.now from }
    ensures { Passed s.now result }
{
    for i in from..s.len() {
        if 0x80 <= s[i] {
            return i;
        }
    }
    s.len()
}

// Returns 0xff if t is true, otherwise 0.
fn mask(t: bool) -> u8
    ensures { result ≡ (if t then 0xff else 0) }
{
    if t { 0xff } else { 0 }
}

// Returns whether x is a tail octet, 0x80 to 0xbf.
#[tactic(auto, unfolding(octets::specs::Text::within))]
fn is_tail(x: u8) -> bool
    ensures { result ≡ within tail x }
{
    (0x80 <= x) & (x <= 0xbf)
}

// Bit 7 of the result is set exactly if a character is incomplete after the octets a, b and c, the last three so far: one of them is a lead that
// takes octets past c.
#[tactic(auto, using(crate::proofs::Judging::incomplete_is))]
fn incomplete(a: u8, b: u8, c: u8) -> u8
    ensures { nat_le 0x80 result ≡ nat_lt 0 (to_come a b c) }
{
    c.saturating_sub(0x40) | b.saturating_sub(0x60) | a.saturating_sub(0x70)
}

// For c from 0xe0 on and x from 0x80 to 0xbf: bit 7 of the result is set exactly if x is in the upper part of these octets. That is from 0xa0 on, or
// from 0x90 on if c is 0xf0 or more.
fn upper_part(c: u8, x: u8) -> u8
    ensures { 0x80 ≤ x → x ≤ 0xbf → 0xe0 ≤ c → nat_le 0x80 result ≡ (if ltb c 0xf0 then nat_le 0xa0 x else nat_le 0x90 x) }
{
    x.wrapping_add(c & 0xf0)
}

// Returns 0xff if only octets of the upper part may follow the lead c, otherwise 0.
fn upper_only(c: u8) -> u8
    ensures { result ≡ (if nat_eq c 0xe0 || c == 0xf0 then 0xff else 0) }
{
    mask((c == 0xe0) | (c == 0xf0))
}

// Returns 0xff if only octets of the lower part may follow the lead c, otherwise 0.
fn lower_only(c: u8) -> u8
    ensures { result ≡ (if nat_eq c 0xed || c == 0xf4 then 0xff else 0) }
{
    mask((c == 0xed) | (c == 0xf4))
}

// For x from 0x80 to 0xbf: bit 7 of the result is set exactly if x is not in the range of the octet after c. Returns 0 if c is below 0xe0.
fn wrong_second(c: u8, x: u8) -> u8
    ensures result_value { 0x80 ≤ x → x ≤ 0xbf → nat_le 0x80 result ≡ not (within (next c) x) }
    ensures value { c < 0xe0 → result ≡ 0 }
{
    let upper = upper_only(c);
    (upper_part(c, x) ^ upper) & (upper | lower_only(c))
}

// For x below 0xf5: bit 7 of the result is set exactly if x is not allowed after the octets a, b and c. Octets from 0xf5 on are never allowed. The
// caller rejects them by the largest octet.
fn wrong(a: u8, b: u8, c: u8, x: u8) -> u8
    ensures { Judged (nat_le 0x80 result || nat_le 0xf5 x) a b c x }
{
    let overlong = (x == 0xc0) | (x == 0xc1);
    wrong_second(c, x) | mask(overlong) | (incomplete(a, b, c) ^ mask(is_tail(x)))
}

// Returns whether octets are text, where this depends only on the octets from `from` on. Each octet is tested against the three before it, and the
// loop has no early exit, so that the compiler can vectorize it. Not inlined, so that `text` has no registers to save for octets below 0x80.
#[inline(never)]
fn long_text(s: &[u8], from: usize) -> bool
    requires passed { Passed s.now from }
    requires from_in_bounds { from + 3 ≤ length s.now }
    ensures { result ≡ text_of s.now }
{
    let n = s.len();
    let x = s[from];
    let y = s[from + 1];
    let z = s[from + 2];
    let mut bad = wrong(0, 0, 0, x) | wrong(0, 0, x, y) | wrong(0, x, y, z);
    let mut largest = x.max(y).max(z);
    for i in from + 3..n {
        bad |= wrong(s[i - 3], s[i - 2], s[i - 1], s[i]);
        largest = largest.max(s[i]);
    }
    !((0x80 <= bad) | (0xf5 <= largest) | (0x80 <= incomplete(s[n - 3], s[n - 2], s[n - 1])))
}

// Returns the least octet that may follow the lead c.
#[tactic(auto, unfolding(crate::specs::internal::Pending::next))]
fn least_second(c: u8) -> u8
    ensures { result ≡ (next c).low }
{
    match c {
        0xe0 => 0xa0,
        0xf0 => 0x90,
        _ => 0x80,
    }
}

// Returns the greatest octet that may follow the lead c.
#[tactic(auto, unfolding(crate::specs::internal::Pending::next))]
fn greatest_second(c: u8) -> u8
    ensures { result ≡ (next c).high }
{
    match c {
        0xed => 0x9f,
        0xf4 => 0x8f,
        _ => 0xbf,
    }
}

// Returns whether x may follow the lead c.
#[tactic(auto, unfolding(octets::specs::Text::within))]
fn is_second(c: u8, x: u8) -> bool
    ensures { result ≡ within (next c) x }
{
    (least_second(c) <= x) & (x <= greatest_second(c))
}

// Returns whether an octet stands after the lead at the front and is in the range that the lead allows.
#[tactic(auto, using(crate::proofs::Characters::following))]
fn one_follows(s: &[u8]) -> bool
    requires { 0 < length s.now }
    ensures { result ≡ follow (pending 1 (slice_index s.now 0)) (drop 1 s.now) }
{
    1 < s.len() && is_second(s[0], s[1])
}

// Returns whether two octets stand after the lead at the front, each in its range.
#[tactic(auto, using(crate::proofs::Characters::following))]
fn two_follow(s: &[u8]) -> bool
    requires { 0 < length s.now }
    ensures { result ≡ follow (pending 2 (slice_index s.now 0)) (drop 1 s.now) }
{
    2 < s.len() && is_second(s[0], s[1]) & is_tail(s[2])
}

// Returns whether three octets stand after the lead at the front, each in its range.
#[tactic(auto, using(crate::proofs::Characters::following))]
fn three_follow(s: &[u8]) -> bool
    requires { 0 < length s.now }
    ensures { result ≡ follow (pending 3 (slice_index s.now 0)) (drop 1 s.now) }
{
    3 < s.len() && is_second(s[0], s[1]) & is_tail(s[2]) & is_tail(s[3])
}

// Returns how many octets the character at the front has, if one stands there.
#[tactic(auto, using(crate::proofs::Characters::sizes))]
fn character(s: &[u8]) -> Option<usize>
    requires { 0 < length s.now }
    ensures { MatchOption result (character_size s.now ≡ 0) (λ n. (0 < n) × (n ≡ character_size s.now)) }
{
    let x = s[0];
    if x < 0x80 {
        return Some(1);
    }
    if x < 0xc2 {
        return None;
    }
    if x < 0xe0 {
        return one_follows(s).then_some(2);
    }
    if x < 0xf0 {
        return two_follow(s).then_some(3);
    }
    if x < 0xf5 {
        return three_follow(s).then_some(4);
    }
    None
}

// Returns whether octets are text. It goes character by character, which is faster than `long_text` for few octets. Not
// inlined, as `long_text`.
#[tactic(auto, using(crate::proofs::Characters::turns))]
#[inline(never)]
fn short_text(s: &[u8]) -> bool
    ensures { result ≡ text_of s.now }
{
    let mut rest = s;
    while !rest.is_empty() {
        let Some(n) = character(rest) else {
            return false;
        };
        rest = &rest[n..];
    }
    true
}

// Returns whether octets are text. Those below 0x80 at the front are passed 64 at a time, then eight at a time and then one by one.
#[tactic(auto, using(crate::proofs::Plain::after_front))]
pub fn text(s: &[u8]) -> bool
    ensures { result ≡ text_of s.now }
{
    if s.len() < 8 {
        return short_text(s);
    }
    let rest = after_blocks::<8>(after_blocks::<64>(s));
    let i = plain_run(s, s.len() - rest.len());
    if i == s.len() {
        return true;
    }
    if s.len() - i < 64 {
        return short_text(&s[i..]);
    }
    long_text(s, i)
}
