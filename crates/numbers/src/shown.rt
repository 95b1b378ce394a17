// The mean as it is shown. The rule that makes a fraction a whole number is `ruled` of specs/Shown.antt and `round_half_even` here.
ghost use Rattle.std.specs.Prelude.{◌≡◌, ◌*◌, ◌^◌, ◌<◌, min};
ghost use Rattle.numbers.specs.Shown.{ruled, most_shown, shown_of};

use crate::bits::{Parts, parts_of};
use std::cmp::Ordering;

const MOST_SHOWN: u64 = 999_999_999;

// The exact 1000 * mean to the nearest whole number, an exact half to the even one, held within ±999,999,999; 0 for a NaN and an infinity.
#[tactic(auto, using(crate::proofs::ShownLaws::shown_none, crate::proofs::ShownLaws::shown_minus, crate::proofs::ShownLaws::shown_plus))]
pub fn shown(mean: f64) -> i64
    ensures { result ≡ shown_of mean }
{
    let Some(p) = parts_of(mean) else {
        return 0;
    };
    let n = thousandths(p) as i64;
    if p.minus { -n } else { n }
}

// 1000 times digits * 2 ^ power smallest values, by the rule, and held at 999,999,999.
#[tactic(auto, using(crate::proofs::ShownLaws::low_power, crate::proofs::ShownLaws::high_power))]
fn thousandths(p: Parts) -> u64
    ensures { result ≡ min (ruled (1000 * (p.digits * 2 ^ p.power)) (2 ^ 1074)) most_shown }
{
    if p.power < 1074 {
        ruled_shift(1000 * p.digits, 1074 - p.power).min(MOST_SHOWN)
    } else {
        MOST_SHOWN
    }
}

// n / 2 ^ by as a whole number, by the rule.
#[tactic(auto, using(crate::proofs::ShownLaws::shifted_one, crate::proofs::ShownLaws::ruled_small))]
fn ruled_shift(n: u64, by: u64) -> u64
    requires { n < 2 ^ 63 }
    ensures { result ≡ ruled n (2 ^ by) }
{
    if by < 64 {
        round_half_even(n, 1 << by)
    } else {
        0
    }
}

// n / unit as a whole number, by the rule: the quotient or the next number, and at an exact half the even one of the two.
#[tactic(auto, using(crate::proofs::ShownLaws::ruled_less, crate::proofs::ShownLaws::ruled_half, crate::proofs::ShownLaws::ruled_more))]
fn round_half_even(n: u64, unit: u64) -> u64
    requires { (n < 2 ^ 63) × (0 < unit) }
    ensures { result ≡ ruled n unit }
{
    let whole = n / unit;
    let twice = n % unit * 2;
    match twice.cmp(&unit) {
        Ordering::Less => whole,
        Ordering::Equal => whole + whole % 2,
        Ordering::Greater => whole + 1,
    }
}
