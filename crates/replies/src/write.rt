// Pieces of a text on a page. Each is written at the page's place, which moves past it; what goes past the end of the
// buffer is not written, and the place that a piece leaves is not past the end.
ghost use Rattle.std.specs.Prelude.{◌≡◌, cond, [], ◌∷◌, ◌+◌, ◌<◌, ltb, take};
ghost use Rattle.text.specs.Numerals.{nat_text, hex_text};
ghost use Rattle.replies.specs.Written.{Writes};
ghost use Rattle.replies.specs.Printed.{int_text, real_text, field, z_lines};

use crate::Page;
use numbers::bits::printed_bits;

impl Page<'_> {
    // Writes one byte.
    pub fn write_byte(&mut self, b: u8)
        ensures { Writes self.old (b ∷ []) self.new }
    {
        if self.at < self.out.len() {
            self.out[self.at] = b;
            self.at += 1;
        } else {
            self.at = self.out.len();
        }
    }

    // Holds the place at the end of the buffer, where it is past it.
    fn hold(&mut self)
        ensures { Writes self.old [] self.new }
    {
        self.at = self.at.min(self.out.len());
    }

    // Writes the bytes of a text.
    pub fn write_text(&mut self, s: &[u8])
        ensures { Writes self.old s.now self.new }
    {
        self.hold();
        for b in s {
            self.write_byte(*b);
        }
    }

    // Writes a number in decimal, without leading zeros: first what stands before its last digit.
    // It calls itself, as the definition does: a loop gets the last digit first, and would need a buffer for the digits.
    pub fn write_decimal(&mut self, n: usize)
        ensures { Writes self.old (nat_text n) self.new }
    {
        if 10 <= n {
            self.write_decimal(n / 10);
        }
        self.write_byte(b'0' + (n % 10) as u8);
    }

    // Writes a number as 16 hexadecimal digits.
    pub fn write_hex(&mut self, n: u64)
        ensures { Writes self.old (hex_text 16 n) self.new }
    {
        self.write_hex_digits(n, 16);
    }

    // The last d hexadecimal digits of a number: first what stands before the last of them.
    // It calls itself, as `hex_text` does: a loop from the first digit on has other quotients, and would need a law that joins the two.
    fn write_hex_digits(&mut self, n: u64, d: usize)
        ensures { Writes self.old (hex_text d n) self.new }
    {
        if d == 0 {
            self.hold();
        } else {
            self.write_hex_digits(n / 16, d - 1);
            self.write_byte(hex_digit(n % 16));
        }
    }

    // Writes a number in decimal, with a minus sign before it where it is below zero.
    pub fn write_signed(&mut self, n: i64)
        ensures { Writes self.old (int_text n) self.new }
    {
        if n < 0 {
            self.write_byte(b'-');
        }
        self.write_decimal(n.unsigned_abs() as usize);
    }

    // Writes the 16 hexadecimal digits of a real number's bits, those of +0 for either zero.
    pub fn write_real(&mut self, x: f64)
        ensures { Writes self.old (real_text x) self.new }
    {
        self.write_hex(printed_bits(x));
    }

    // Writes a key, a number in decimal and a newline. The key has its `=` with it. A trait over the three kinds of number that a field
    // holds would need a law and three impls, and be longer than the three functions.
    pub fn write_count(&mut self, key: &[u8], n: usize)
        ensures { Writes self.old (field key.now (nat_text n)) self.new }
    {
        self.write_text(key);
        self.write_decimal(n);
        self.write_byte(b'\n');
    }

    // Writes a key, a number in decimal with its sign and a newline.
    pub fn write_signed_field(&mut self, key: &[u8], n: i64)
        ensures { Writes self.old (field key.now (int_text n)) self.new }
    {
        self.write_text(key);
        self.write_signed(n);
        self.write_byte(b'\n');
    }

    // Writes a key, a real number and a newline.
    pub fn write_real_field(&mut self, key: &[u8], x: f64)
        ensures { Writes self.old (field key.now (real_text x)) self.new }
    {
        self.write_text(key);
        self.write_real(x);
        self.write_byte(b'\n');
    }

    // Writes a line for each of the first n means, as far as there are means.
    pub fn write_means(&mut self, means: &[f64], n: usize)
        ensures { Writes self.old (z_lines (take n means.now)) self.new }
    {
        self.hold();
        for x in &means[..n.min(means.len())] {
            self.write_real_field(b"z=", *x);
        }
    }
}

// The byte of a hexadecimal digit.
fn hex_digit(g: u64) -> u8
    requires { g < 16 }
    ensures { result ≡ cond (ltb g 10) (48 + g) (87 + g) }
{
    if g < 10 {
        (48 + g) as u8
    } else {
        (87 + g) as u8
    }
}
