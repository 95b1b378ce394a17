// A number kept or negated.
ghost use Rattle.std.specs.Prelude.{◌≡◌, cond, ◌%◌, eqb};
ghost use Rattle.std.specs.Float.Ieee.{neg};
ghost use Rattle.numbers.specs.Constants.{one64, minus_one64};

// 1, or -1 if n is odd. It is made from its bits: a choice between the two would become a branch, which the processor would often predict wrongly.
#[tactic(auto, using(crate::proofs::UnitLaws::unit_no_nan, crate::proofs::UnitLaws::unit_bits))]
fn unit(n: usize) -> f64
    ensures { result ≡ cond (eqb (n % 2) 1) minus_one64 one64 }
{
    let minus = (n % 2) as u64;
    f64::from_bits(0x3ff0_0000_0000_0000 + 0x8000_0000_0000_0000 * minus)
}

// x, or -x if n is odd. A product with 1 or -1 is exact.
#[tactic(auto, using(crate::proofs::UnitLaws::times_unit))]
pub fn negated_if(x: f64, n: usize) -> f64
    ensures { result ≡ cond (eqb (n % 2) 1) (neg x) x }
{
    x * unit(n)
}
