// What is done to the one number of a term. The specification names `scaled`, `flipped` and `plus`: each product and sum is rounded once, in a function
// of its own.
ghost use Rattle.std.specs.Prelude.{◌≡◌};
ghost use Rattle.words.specs.Letters.{is_odd};
ghost use Rattle.terms.specs.Coefficient.{signed, scaled_of, flipped_of, plus_of, asks_word};

use words::Gate;

// Times a real number.
pub fn scaled(v: f64, f: f64) -> f64
    ensures { result ≡ scaled_of f v }
{
    v * f
}

pub fn plus(v: f64, u: f64) -> f64
    ensures { result ≡ plus_of v u }
{
    v + u
}

// The sine, negated where the Y letters of a word are odd in number. It is chosen by its place: a branch on the parity would often be
// predicted wrongly.
#[tactic(auto, using(crate::proofs::SignLaws::sine_at))]
fn signed_sine(odd: usize, sin: f64) -> f64
    ensures { result ≡ signed (is_odd odd) sin }
{
    let sines = [sin, -sin];
    sines[odd % 2]
}

// The flip of a number, for a rotation's partner; `odd` is the number of Y letters of its word, or that modulo 2.
#[tactic(auto, using(crate::proofs::SignLaws::flip_by_sine))]
pub fn flipped(v: f64, odd: usize, sin: f64) -> f64
    ensures { result ≡ flipped_of (is_odd odd) sin v }
{
    -(v * signed_sine(odd, sin))
}

// Whether a gate's sign takes the parity of the whole word.
pub fn asks_word(gate: Gate) -> bool
    ensures { result ≡ asks_word gate }
{
    matches!(gate, Gate::S | Gate::Sdg | Gate::Sx | Gate::Sxdg)
}
