// A number and the 64 bits that stand for it.
ghost use Rattle.std.specs.Prelude.{◌≡◌, ◌*◌, ◌^◌, ◌<◌, ◌≤◌, false, MatchOption};
ghost use Rattle.std.specs.Float.{binary64};
ghost use Rattle.std.specs.Float.Ieee.{to_bits, of_bits};
ghost use Rattle.std.specs.Float.Ieee.Exact.{HasValue};
ghost use Rattle.numbers.specs.Tests.{is_finite};
ghost use Rattle.numbers.specs.Bits.{printed_bits};

use crate::tests::is_finite;

// The bits of x. A NaN has many: 7ff8000000000000 is given for each.
#[tactic(auto, using(crate::proofs::BitLaws::nan_bits_of))]
pub fn bits_of(x: f64) -> u64
    ensures { result ≡ to_bits binary64 x }
{
    if x.is_nan() {
        return 0x7ff8_0000_0000_0000;
    }
    x.to_bits()
}

// The number of 64 bits.
#[tactic(auto, using(crate::proofs::BitLaws::nan_same, crate::proofs::BitLaws::number_bits))]
pub fn of_bits(bits: u64) -> f64
    ensures { result ≡ of_bits binary64 bits }
{
    if 0x7ff0_0000_0000_0000 < bits % 0x8000_0000_0000_0000 {
        return f64::NAN;
    }
    f64::from_bits(bits)
}

// The bits that are printed for x: those of +0 for either zero.
pub fn printed_bits(x: f64) -> u64
    ensures { result ≡ printed_bits x }
{
    if x == 0.0 { 0 } else { bits_of(x) }
}

// A finite number taken apart: digits * 2 ^ power of the smallest values, 2 ^ -1074.
#[derive(Clone, Copy)]
pub(crate) struct Parts {
    pub(crate) minus: bool,
    pub(crate) digits: u64,
    pub(crate) power: u64,
    ghost few: { digits < 2 ^ 53 },
    ghost lead: { 0 < power → 2 ^ 52 ≤ digits },
}

// The parts of x; None for a NaN and an infinity.
#[tactic(auto, using(crate::proofs::TestLaws::finite_no_nan, crate::proofs::BitLaws::low_value, crate::proofs::BitLaws::normal_value))]
pub(crate) fn parts_of(x: f64) -> Option<Parts>
    ensures { MatchOption result (is_finite x ≡ false) (λ p. HasValue x p.minus (p.digits * 2 ^ p.power) (2 ^ 1074)) }
{
    if !is_finite(x) {
        return None;
    }
    let bits = x.to_bits();
    let minus = 0x8000_0000_0000_0000 <= bits;
    let field = bits % 0x8000_0000_0000_0000 / 0x0010_0000_0000_0000;
    let low = bits % 0x0010_0000_0000_0000;
    if field == 0 {
        return Some(Parts {
            minus,
            digits: low,
            power: 0,
        });
    }
    Some(Parts {
        minus,
        digits: 0x0010_0000_0000_0000 + low,
        power: field - 1,
    })
}
