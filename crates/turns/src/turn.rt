// One turn of a run: an op, and what follows it.
ghost use Rattle.std.specs.Prelude.{◌≡◌, ◌&&◌, ◌+◌, ◌*◌, ◌^◌, ◌≤◌, ◌<◌, ltb, Result};
ghost use Rattle.terms.specs.Term.{Distinct};
ghost use Rattle.rows.specs.Lent.{row_terms, row_count};
ghost use Rattle.dynamics.specs.Turn.{drop_small, settle};
ghost use Rattle.dynamics.specs.Runs.{turn};
ghost use Rattle.turns.specs.Told.{fine_in, within_of, CheckedIn, state_of, RowsDropped, RowsReady, RowsTell};

use crate::peaks::note_count;
use crate::{Progress, Tally, apply};
use ops::{Limits, Op, Refusal};
use rows::Rows;

// Question 8 of the terms and the discarded weight.
pub(crate) fn fine(rows: &Rows<'_>, at: Progress) -> bool
    ensures { result ≡ fine_in at rows.now.coeffs.now }
{
    sums::mean::all_finite(rows.coeffs, at.count) && numbers::tests::is_finite(at.tally.discarded)
}

// The drop of small terms; their sum is added to the discarded weight.
pub(crate) fn drop_small(rows: &mut Rows<'_>, at: Progress, epsilon: f64) -> Progress
    requires { at.count ≤ row_count rows.old }
    ensures { RowsDropped at.count result (drop_small epsilon (state_of at rows.old)) rows.old rows.new }
{
    rows.fits64();
    let kept = sums::truncate::truncate(rows, at.count, epsilon);
    let discarded = at.tally.discarded + kept.dropped;
    Progress {
        count: kept.count,
        tally: Tally {
            discarded,
            ..at.tally
        },
    }
}

fn is_crowded(limits: Limits, n: usize) -> bool
    ensures { result ≡ ltb 0 limits.max_terms && ltb limits.max_terms n }
{
    0 < limits.max_terms && limits.max_terms < n
}

// Question 9, and the peak.
fn within(limits: Limits, at: Progress) -> Result<Progress, Refusal>
    ensures { result ≡ within_of limits at }
{
    if limits.limit < at.count {
        return Err(Refusal::TooMany);
    }
    let mut tally = at.tally;
    note_count(&mut tally, at.count);
    Ok(Progress { tally, ..at })
}

// Questions 8 and 9, and the peak.
fn checked(limits: Limits, rows: &Rows<'_>, at: Progress) -> Result<Progress, Refusal>
    ensures { CheckedIn limits at rows.now.coeffs.now result }
{
    if !fine(rows, at) {
        return Err(Refusal::NotFinite);
    }
    within(limits, at)
}

// What follows an op. Where nothing is dropped, question 8 has been answered.
fn settle(limits: Limits, rows: &mut Rows<'_>, at: Progress) -> Result<Progress, Refusal>
    requires { (at.count ≤ 2 * limits.limit) × (2 * limits.limit ≤ row_count rows.old) × Distinct (row_terms rows.old at.count) }
    ensures { RowsTell limits result (settle limits (state_of at rows.old)) rows.old rows.new }
{
    if !fine(rows, at) {
        return Err(Refusal::NotFinite);
    }
    if !is_crowded(limits, at.count) {
        return within(limits, at);
    }
    let left = drop_small(rows, at, limits.epsilon);
    checked(limits, rows, left)
}

// One op, and what follows it.
pub(crate) fn turn(
    op: Op,
    limits: Limits,
    rows: &mut Rows<'_>,
    index: &mut [u32],
    at: Progress,
) -> Result<Progress, Refusal>
    requires { RowsReady limits at.count rows.old × (at.tally.touched + limits.limit < 2 ^ 64) }
    ensures { RowsTell limits result (turn rows.old.w limits op (state_of at rows.old)) rows.old rows.new }
{
    rows.fits64();
    let step = apply::apply_backward(op, rows, index, at.count);
    let touched = at.tally.touched + step.met;
    let met = Progress {
        count: step.count,
        tally: Tally {
            touched,
            ..at.tally
        },
    };
    settle(limits, rows, met)
}
