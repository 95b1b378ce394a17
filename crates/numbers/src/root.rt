// The square root: the nearest binary64.
ghost use Rattle.std.specs.Prelude.{◌≡◌};
ghost use Rattle.numbers.specs.Root.{sqrt_of};

// The square root of x: x itself for a zero and for +∞, a NaN for what is below zero.
#[tactic(auto, using(crate::proofs::StdRoot::sqrt_same))]
pub fn sqrt(x: f64) -> f64
    ensures { result ≡ sqrt_of x }
{
    x.sqrt()
}
