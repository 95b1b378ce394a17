// Questions about one number, the absolute value, and a number held at zero.
ghost use Rattle.std.specs.Prelude.{◌≡◌};
ghost use Rattle.numbers.specs.Tests.{is_finite, abs_of, is_epsilon, in_sine, in_unit, at_least_zero};

// Whether x is neither a NaN nor an infinity.
#[tactic(auto, using(crate::proofs::TestLaws::above_minus, crate::proofs::TestLaws::not_above_minus))]
pub fn is_finite(x: f64) -> bool
    ensures { result ≡ is_finite x }
{
    // It is asked of every row after each op: by the library's `is_finite` a run of `all` takes 7 % longer.
    f64::NEG_INFINITY < x && x < f64::INFINITY
}

// x with its sign cleared: +0 at -0.
#[tactic(auto, using(crate::proofs::TestLaws::sign_cleared))]
pub fn absolute(x: f64) -> f64
    ensures { result ≡ abs_of x }
{
    x.abs()
}

// Whether x can be an epsilon: finite and at least 0.
pub fn is_epsilon(x: f64) -> bool
    ensures { result ≡ is_epsilon x }
{
    is_finite(x) && 0.0 <= x
}

// Whether x can be a sine or a cosine: from -1 to 1.
#[tactic(auto, using(crate::proofs::TestLaws::le_of_cmp))]
pub fn in_sine(x: f64) -> bool
    ensures { result ≡ in_sine x }
{
    (-1.0..=1.0).contains(&x)
}

// Whether x can be a rate: from 0 to 1.
#[tactic(auto, using(crate::proofs::TestLaws::le_of_cmp))]
pub fn in_unit(x: f64) -> bool
    ensures { result ≡ in_unit x }
{
    (0.0..=1.0).contains(&x)
}

// The Rust's `x.max(0.0)`: x where it is above 0, and +0 otherwise, at a NaN too. Not by `max`, whose contract leaves open which zero it gives.
pub fn at_least_zero(x: f64) -> f64
    ensures { result ≡ at_least_zero x }
{
    if 0.0 < x { x } else { 0.0 }
}
