// Decimal numbers below 2^64, without leading zeros.
ghost use Rattle.std.specs.Prelude.{◌≡◌, Some};
ghost use Rattle.text.specs.Numerals.{next_digit, decimal};

// The number that v's digits and one digit more make.
#[tactic(auto, using(std::proofs::lemmas::Bool::Decides::nat_tests), unfolding(crate::specs::Numerals::next_digit))]
fn push_digit(v: usize, b: u8) -> Option<usize>
    ensures { result ≡ next_digit (Some v) b }
{
    if !b.is_ascii_digit() {
        return None;
    }
    v.checked_mul(10)?.checked_add((b - b'0') as usize)
}

// The number that s spells, if s is the spelling of one.
#[tactic(auto, using(crate::proofs::ReadLaws::decimal_none, crate::proofs::ReadLaws::decimal_zero, crate::proofs::ReadLaws::decimal_one, crate::proofs::ReadLaws::decimal_more))]
pub fn read_decimal(s: &[u8]) -> Option<usize>
    ensures { result ≡ decimal s.now }
{
    if s.is_empty() || (1 < s.len() && s[0] == b'0') {
        return None;
    }
    let mut v: usize = 0;
    for b in s {
        v = push_digit(v, *b)?;
    }
    Some(v)
}
