// Question 11: a pair that is an angle, and rates that sum to at most 1. Each number is cut to a whole multiple of 2^-60.
ghost use Rattle.std.specs.Prelude.{◌≡◌, ◌*◌, ◌/◌, ◌^◌, ◌<◌, ◌≤◌, min};
ghost use Rattle.numbers.specs.Angle.{cut_of, most, is_angle, is_mix, on_circle};

use crate::bits::{Parts, parts_of};

// Twice what 1 has: no pair and no triple that passes has a number with so many.
const MOST: u64 = 1 << 61;

// Whether a sine and a cosine, cut, are on the circle.
#[tactic(auto, using(crate::proofs::CutLaws::circle_held))]
pub fn is_angle(sine: f64, cosine: f64) -> bool
    ensures { result ≡ is_angle sine cosine }
{
    on_circle(cut(sine), cut(cosine))
}

// Whether three rates, cut, sum to at most 1.
#[tactic(auto, using(crate::proofs::CutLaws::mix_held))]
pub fn is_mix(px: f64, py: f64, pz: f64) -> bool
    ensures { result ≡ is_mix px py pz }
{
    cut(px) + cut(py) + cut(pz) <= 1 << 60
}

// Whether a * a + b * b is 2^120, up to 2^70 either way.
fn on_circle(a: u64, b: u64) -> bool
    requires { (a ≤ most) × (b ≤ most) }
    ensures { result ≡ on_circle a b }
{
    let (a, b) = (u128::from(a), u128::from(b));
    (a * a + b * b).abs_diff(1 << 120) <= 1 << 70
}

// How many whole multiples of 2^-60 the size of x has, held at the most.
#[tactic(auto, using(crate::proofs::CutLaws::cut_value, crate::proofs::CutLaws::cut_none))]
fn cut(x: f64) -> u64
    ensures { result ≡ min (cut_of x).size most }
{
    parts_of(x).map_or(MOST, cut_parts)
}

// The same of digits * 2^power smallest values, 2^-1074.
#[tactic(auto, using(crate::proofs::CutLaws::low_power, crate::proofs::CutLaws::middle_power, crate::proofs::CutLaws::high_power))]
fn cut_parts(p: Parts) -> u64
    ensures { result ≡ min (p.digits * 2 ^ p.power * 2 ^ 60 / 2 ^ 1074) most }
{
    if p.power < 1014 {
        cut_down(p.digits, 1014 - p.power)
    } else if p.power < 1023 {
        p.digits << (p.power - 1014)
    } else {
        MOST
    }
}

// digits / 2^by
#[tactic(auto, using(crate::proofs::CutLaws::zero_down))]
fn cut_down(digits: u64, by: u64) -> u64
    requires { digits < 2 ^ 53 }
    ensures { result ≡ digits / 2 ^ by }
{
    if by < 64 { digits >> by } else { 0 }
}
