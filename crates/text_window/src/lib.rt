// Prints text piece by piece into a window: the caller's buffer, which receives the octets of a longer text from an offset on. Each method
// prints a piece at the offset that the text has reached. Every offset is allowed: an octet at the offset 2^64 - 1 or above is neither stored
// nor counted, so the offset fits 64 bits.
#![tactic(auto)]

ghost use Rattle.std.specs.Prelude.{◌≡◌, [], ◌∷◌, ◌<◌, ◌^◌, negsuc};
ghost use Rattle.text_window.specs.Digits.{glyph, decimal_within, decimal, signed_decimal, four_digits, hex, hex_or_dash};
ghost use Rattle.text_window.specs.Window.{Prints};

// A window on a text: the buffer, the offset at which it begins in the text, and the offset that the text has reached.
#[derive(Drop)]
pub struct Window<'a> {
    pub out: &'a mut [u8],
    pub from: u64,
    pub at: u64,
}

impl<'a> Window<'a> {
    // Prints one octet. An octet before or after the window is counted but not stored.
    pub fn put(&mut self, x: u8)
        ensures { Prints self.old (x ∷ []) self.new }
    {
        let at = self.at;
        if at == u64::MAX {
            return;
        }
        self.at = at + 1;
        if at < self.from {
            return;
        }
        let i = (at - self.from) as usize;
        if i < self.out.len() {
            self.out[i] = x;
        }
    }

    // Prints octets unchanged.
    pub fn octets(&mut self, s: &[u8])
        ensures { Prints self.old s.now self.new }
    {
        for x in s {
            self.put(*x);
        }
    }

    // Prints the two hex digits of an octet.
    fn octet(&mut self, x: u8)
        ensures { Prints self.old (hex (x ∷ [])) self.new }
    {
        self.put(digit(x / 16));
        self.put(digit(x % 16));
    }

    // Prints octets in hex.
    pub fn hex(&mut self, s: &[u8])
        ensures { Prints self.old (hex s.now) self.new }
    {
        for x in s {
            self.octet(*x);
        }
    }

    // Prints octets in hex, or `-` if there are none.
    pub fn hex_or_dash(&mut self, s: &[u8])
        ensures { Prints self.old (hex_or_dash s.now) self.new }
    {
        if s.is_empty() {
            self.put(b'-')
        } else {
            self.hex(s)
        }
    }

    // Prints the low 16 bits of a number as four hex digits.
    pub fn four_digits(&mut self, n: u64)
        ensures { Prints self.old (four_digits n) self.new }
    {
        self.octet((n / 256 % 256) as u8);
        self.octet((n % 256) as u8);
    }

    // Prints the decimal digits of a number that has at most `most` digits: first all but the last one, then the last one.
    // Kept: write!(self, "{n}") returns a Result that each caller has to drop, and its text is std's definition, not that of specs/Digits.antt.
    fn digits(&mut self, most: u64, n: u64)
        ensures { Prints self.old (decimal_within most n) self.new }
    {
        if most == 0 {
            return;
        }
        if n < 10 {
            return self.put(digit(n as u8));
        }
        self.digits(most - 1, n / 10);
        self.put(digit((n % 10) as u8));
    }

    // Prints a number in decimal.
    pub fn decimal(&mut self, n: u64)
        ensures { Prints self.old (decimal n) self.new }
    {
        self.digits(20, n);
    }

    // Prints the negative number -(k + 1) in decimal.
    fn minus(&mut self, k: u64)
        requires { k < 2 ^ 63 }
        ensures { Prints self.old (signed_decimal (negsuc k)) self.new }
    {
        self.put(b'-');
        self.decimal(k + 1);
    }

    // Prints a signed number in decimal.
    pub fn signed(&mut self, z: i64)
        ensures { Prints self.old (signed_decimal z) self.new }
    {
        if z < 0 {
            self.minus(numbers::below_zero(z));
        } else {
            self.decimal(z as u64);
        }
    }
}

// Returns the ASCII code of a digit below 16.
fn digit(d: u8) -> u8
    requires { d < 16 }
    ensures { result ≡ glyph d }
{
    if d < 10 { 48 + d } else { 87 + d }
}
