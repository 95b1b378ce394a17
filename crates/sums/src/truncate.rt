// The terms of a size of at least epsilon, moved together.
ghost use Rattle.std.specs.Prelude.{◌≡◌, ◌*◌, ◌≤◌};
ghost use Rattle.terms.specs.Truncation.{kept_of, dropped_of};
ghost use Rattle.rows.specs.Rows.{Stored, Holds};
ghost use Rattle.rows.specs.Lent.{row_term, row_terms, OnRows};
ghost use Rattle.rows.specs.There.{HasRow, HasRows};
ghost use Rattle.sums.specs.Steps.{KeptRow, Truncated};

use crate::Kept;
use numbers::tests::absolute;
use rows::{Rows, row};

// Row i, moved to row k, which is i or before it.
fn move_row(rows: &mut Rows<'_>, i: usize, k: usize)
    requires { (k ≤ i) × HasRow rows.old i }
    ensures { OnRows (Stored (2 * rows.old.w) k (row_term rows.old i)) rows.old rows.new }
{
    if k < i {
        row::copy_row(rows.words, 2 * rows.w, i, k);
        rows.coeffs[k] = rows.coeffs[i];
    }
}

// Row i, moved to the end of the rows kept so far, or its size added to what is dropped.
fn keep_row(rows: &mut Rows<'_>, i: usize, kept: Kept, epsilon: f64) -> Kept
    requires { (kept.count ≤ i) × HasRow rows.old i }
    ensures { OnRows (KeptRow (2 * rows.old.w) i epsilon kept result) rows.old rows.new }
{
    let magnitude = absolute(rows.coeffs[i]);
    if magnitude < epsilon {
        return Kept {
            dropped: kept.dropped + magnitude,
            ..kept
        };
    }
    move_row(rows, i, kept.count);
    Kept {
        count: kept.count + 1,
        ..kept
    }
}

fn keep_rows(rows: &mut Rows<'_>, n: usize, epsilon: f64) -> Kept
    requires { HasRows rows.old n }
    ensures { OnRows (Holds (2 * rows.old.w) n result.count (kept_of epsilon (row_terms rows.old n))) rows.old rows.new
        × ((result.count ≤ n) × (result.dropped ≡ dropped_of epsilon (row_terms rows.old n))) }
{
    let mut kept = Kept {
        count: 0,
        dropped: 0.0,
    };
    for i in 0..n {
        kept = keep_row(rows, i, kept, epsilon);
    }
    kept
}

// Drops each of the first n terms whose size is below epsilon; the rows that this frees are set to zero. The answer has how many terms
// stay and the sum of the sizes dropped.
pub fn truncate(rows: &mut Rows<'_>, n: usize, epsilon: f64) -> Kept
    ensures { OnRows (Truncated rows.old.w n epsilon result) rows.old rows.new }
{
    if n == 0 || rows.count() < n {
        return Kept {
            count: n,
            dropped: 0.0,
        };
    }
    // The rows as a value of this function's own: through the reference the loops would read its slices again for each row.
    let mut lent = Rows {
        words: rows.words,
        coeffs: rows.coeffs,
        w: rows.w,
    };
    let kept = keep_rows(&mut lent, n, epsilon);
    lent.clear(kept.count, n);
    kept
}
