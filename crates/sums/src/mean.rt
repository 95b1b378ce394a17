// The mean of a sum, and whether its coefficients are finite.
ghost use Rattle.std.specs.Prelude.{◌≡◌, cond, ◌*◌, ◌<◌, leb};
ghost use Rattle.numbers.specs.Constants.{zero64};
ghost use Rattle.terms.specs.Mean.{add_mean, mean_of};
ghost use Rattle.rows.specs.Rows.{term_at, terms_in, rows_in};
ghost use Rattle.sums.specs.Steps.{finite_rows};

use numbers::tests::is_finite;
use rows::row;

// The mean so far, with the term of row i.
fn add_mean(words: &[u64], coeffs: &[f64], w: usize, i: usize, sum: f64) -> f64
    requires { i < rows_in w words.now coeffs.now }
    ensures { result ≡ add_mean w sum (term_at (2 * w) words.now coeffs.now i) }
{
    let base = i * (2 * w);
    let x_words = &words[base..base + w];
    if x_words.iter().all(|word| *word == 0) {
        sum + coeffs[i]
    } else {
        sum
    }
}

// The mean of the first n terms: the real parts of those with no x bit, summed in row order. It takes the two slices, since it only reads
// and a `Rows` is made of exclusive ones.
pub fn diagonal_expectation(words: &[u64], coeffs: &[f64], w: usize, n: usize) -> f64
    ensures { result ≡ cond (leb n (rows_in w words.now coeffs.now)) (mean_of w (terms_in (2 * w) n words.now coeffs.now)) zero64 }
{
    if row::rows_in(words.len(), coeffs.len(), w) < n {
        return 0.0;
    }
    let mut sum = 0.0;
    for i in 0..n {
        sum = add_mean(words, coeffs, w, i, sum);
    }
    sum
}

// Whether the first n coefficients are there and finite. Every number is tested, with no early end, so that the compiler can test
// several at once.
pub fn all_finite(coeffs: &[f64], n: usize) -> bool
    ensures { result ≡ finite_rows n coeffs.now }
{
    if coeffs.len() < n {
        return false;
    }
    let mut finite = true;
    for c in &coeffs[..n] {
        finite &= is_finite(*c);
    }
    finite
}
