// Rows times a factor of their keys.
ghost use Rattle.std.specs.Prelude.{◌≡◌, Option, map, ◌*◌, ◌<◌, ℕ, Float};
ghost use Rattle.std.specs.Fn.{FnReturnsAt};
ghost use Rattle.words.specs.Keys.{Key};
ghost use Rattle.rows.specs.Rows.{Holds};
ghost use Rattle.rows.specs.Lent.{row_key, row_terms, SameRows};
ghost use Rattle.rows.specs.There.{HasRows};
ghost use Rattle.branches.specs.Scaling.{scaled_at};

use crate::probe;
use rows::Rows;
use terms::number;

// Each of the first n rows, times the factor that the closure gives its key, where it gives one; the number of another row is not written. In the
// contract f is any function of keys that agrees with the closure at these rows.
pub(crate) fn scale_rows<F: Fn(&[u64]) -> Option<f64>>(rows: &mut Rows<'_>, n: usize, factor: F)
    requires callable { F.IsAlwaysCallable factor }
    requires room { HasRows rows.old n }
    ensures same { SameRows rows.old rows.new }
    ensures scaled { (f : Key → Option Float)
        → ((i : ℕ) (r : Option Float) → i < n → FnReturnsAt F.Fn factor (row_key rows.old i) r → r ≡ f (row_key rows.old i))
        → Holds (2 * rows.old.w) n n (map (scaled_at f) (row_terms rows.old n))
        rows.old.words.now rows.new.words.now rows.old.coeffs.now rows.new.coeffs.now }
{
    for i in 0..n {
        if let Some(f) = factor(probe::key(rows, i)) {
            rows.coeffs[i] = number::scaled(rows.coeffs[i], f);
        }
    }
}
