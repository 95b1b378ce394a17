// The end of a run: the last drop, the mean and question 8.
ghost use Rattle.std.specs.Prelude.{◌≡◌, cond, leb, ◌≤◌};
ghost use Rattle.numbers.specs.Constants.{zero64};
ghost use Rattle.terms.specs.Mean.{mean_of};
ghost use Rattle.rows.specs.Lent.{row_terms, row_count};
ghost use Rattle.dynamics.specs.Turn.{last_drop, finish};
ghost use Rattle.turns.specs.Told.{state_of, RowsDropped, RowsReady, RowsEnd};

use crate::{Finished, Progress, turn};
use ops::{Limits, Refusal};
use rows::Rows;

// The last drop, if epsilon is above 0.
fn final_sweep(limits: Limits, rows: &mut Rows<'_>, at: Progress) -> Progress
    requires { at.count ≤ row_count rows.old }
    ensures { RowsDropped at.count result (last_drop limits (state_of at rows.old)) rows.old rows.new }
{
    if 0.0 < limits.epsilon {
        return turn::drop_small(rows, at, limits.epsilon);
    }
    at
}

// The mean of the first n rows. It takes the rows shared: of rows that are lent exclusively, as those of `finish` are, two slices can't be lent on in one call.
fn rows_mean(rows: &Rows<'_>, n: usize) -> f64
    ensures { result ≡ cond (leb n (row_count rows.now)) (mean_of rows.now.w (row_terms rows.now n)) zero64 }
{
    sums::mean::diagonal_expectation(rows.words, rows.coeffs, rows.w, n)
}

// The end of a run.
pub(crate) fn finish(limits: Limits, rows: &mut Rows<'_>, at: Progress) -> Result<Finished, Refusal>
    requires { RowsReady limits at.count rows.old }
    ensures { RowsEnd limits result (finish rows.old.w limits (state_of at rows.old)) rows.old rows.new }
{
    let left = final_sweep(limits, rows, at);
    let mean = rows_mean(rows, left.count);
    if !turn::fine(rows, left) || !numbers::tests::is_finite(mean) {
        return Err(Refusal::NotFinite);
    }
    Ok(Finished {
        mean,
        count: left.count,
        tally: left.tally,
    })
}
