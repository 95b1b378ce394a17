// Runs over the ops that marks set, from the last to the first.
ghost use Rattle.std.specs.Prelude.{◌≡◌, ◌*◌, ◌≤◌, length};
ghost use Rattle.dynamics.specs.Runs.{runs, marked_run};
ghost use Rattle.turns.specs.Told.{state_of, RowsFresh, RowsTell, RowsEnd};

use crate::{Finished, Progress, finish, turn};
use ops::{Limits, Op, Refusal};
use rows::Rows;

// The turns of the ops that the marks set.
#[tactic(auto, using(crate::proofs::RunLaws::rows_turned))]
fn run_rows(
    start: Progress,
    ops: &[Op],
    marks: &[bool],
    limits: Limits,
    rows: &mut Rows<'_>,
    index: &mut [u32],
) -> Result<Progress, Refusal>
    requires { RowsFresh limits start ops.now rows.old }
    ensures { RowsTell limits result (runs rows.old.w limits marks.now ops.now (state_of start rows.old)) rows.old rows.new }
{
    let mut at = start;
    for i in (0..ops.len().min(marks.len())).rev() {
        if marks[i] {
            at = turn::turn(ops[i], limits, rows, index, at)?;
        }
    }
    Ok(at)
}

// A run from the terms in the rows. Past the final terms the rows hold anything, and so does the index.
pub(crate) fn run_from(
    start: Progress,
    ops: &[Op],
    marks: &[bool],
    limits: Limits,
    rows: &mut Rows<'_>,
    index: &mut [u32],
) -> Result<Finished, Refusal>
    requires { RowsFresh limits start ops.now rows.old }
    ensures { RowsEnd limits result (marked_run rows.old.w limits marks.now ops.now (state_of start rows.old)) rows.old rows.new }
{
    let last = run_rows(start, ops, marks, limits, rows, index)?;
    finish::finish(limits, rows, last)
}
