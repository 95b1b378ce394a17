// Real numbers, written as the 16 lowercase hexadecimal digits of their bits.
ghost use Rattle.std.specs.Prelude.{◌≡◌};
ghost use Rattle.text.specs.Numerals.{hex_digit, hex16, real};

use numbers::bits::of_bits;

// The value of a lowercase hexadecimal digit.
#[tactic(auto, using(std::proofs::lemmas::Bool::Decides::nat_tests), unfolding(crate::specs::Numerals::hex_digit))]
fn hex_digit(b: u8) -> Option<usize>
    ensures { result ≡ hex_digit b }
{
    match b {
        b'0'..=b'9' => Some((b - b'0') as usize),
        b'a'..=b'f' => Some((b - b'a' + 10) as usize),
        _ => None,
    }
}

// The number that exactly 16 digits spell.
pub fn read_hex(s: &[u8]) -> Option<usize>
    ensures { result ≡ hex16 s.now }
{
    if s.len() != 16 {
        return None;
    }
    let mut v: usize = 0;
    for b in s {
        v = 16 * v + hex_digit(*b)?;
    }
    Some(v)
}

// The binary64 number whose bits are written.
pub fn read_real(s: &[u8]) -> Option<f64>
    ensures { result ≡ real s.now }
{
    Some(of_bits(read_hex(s)? as u64))
}
