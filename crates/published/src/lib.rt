// The complex record of a compared row, read from the row's word and its one number.
#![tactic(auto)]

ghost use Rattle.std.specs.Prelude.{◌≡◌};
ghost use Rattle.terms.specs.Term.{odd_y};
ghost use Rattle.published.specs.Complex.{coeff_of};

use words::letters::y_parity;

// A complex coefficient.
#[derive(Clone, Copy)]
pub struct Complex64 {
    pub re: f64,
    pub im: f64,
}

// The coefficient that a number stands for, of a word whose Y letters are odd in number, or even.
fn part_of(odd: bool, v: f64) -> Complex64
    ensures { result ≡ coeff_of odd v }
{
    if odd {
        Complex64 { re: 0.0, im: v }
    } else {
        Complex64 { re: v, im: 0.0 }
    }
}

// The coefficient of a row with this key and number.
pub fn complex_of(key: &[u64], w: usize, v: f64) -> Complex64
    ensures { result ≡ coeff_of (odd_y w key.now) v }
{
    part_of(y_parity(key, w) == 1, v)
}
