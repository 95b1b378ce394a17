// The fold: each line of a sum alone at weight 1, and the totals.
ghost use Rattle.std.specs.Prelude.{◌≡◌, ◌+◌, ◌^◌, ◌<◌};
ghost use Rattle.dynamics.specs.Turn.{going};
ghost use Rattle.dynamics.specs.Outcome.{nothing_yet, fold_lines, ask_totals, folded};
ghost use Rattle.ops.specs.LineTable.{task_of};
ghost use Rattle.turns.specs.SumRuns.{told_by, results_of};
ghost use Rattle.turns.specs.Folding.{held, added, RowsSumReady, RowsFold};
ghost use Rattle.turns.specs.Told.{RowsEnd};

use crate::run::run_from;
use crate::{Finished, Tally, starts};
use ops::{Circuit, Limits, Observable, Refusal};
use rows::Rows;

// The totals of the lines so far.
#[derive(Clone, Copy)]
struct Totals {
    mean: f64,
    tally: Tally,
}

impl Totals {
    fn none() -> Totals
        ensures { held result ≡ nothing_yet }
    {
        Totals {
            mean: 0.0,
            tally: Tally::begun(0),
        }
    }

    // The totals with one line's end: its mean times the weight, its discarded weight times the weight's size, the greater peak, and the
    // terms that its ops met.
    fn with_line(self, weight: f64, end: Finished) -> Totals
        requires { self.tally.touched + end.tally.touched < 2 ^ 64 }
        ensures { result ≡ added self weight end }
    {
        let size = numbers::tests::absolute(weight);
        Totals {
            mean: self.mean + weight * end.mean,
            tally: Tally {
                peak: self.tally.peak.max(end.tally.peak),
                discarded: self.tally.discarded + size * end.tally.discarded,
                touched: self.tally.touched + end.tally.touched,
            },
        }
    }

    // Question 8 of the totals.
    fn finished(self) -> Result<Finished, Refusal>
        ensures { told_by result ≡ results_of (ask_totals (held self)) }
    {
        if !numbers::tests::is_finite(self.mean)
            || !numbers::tests::is_finite(self.tally.discarded)
        {
            return Err(Refusal::NotFinite);
        }
        Ok(Finished {
            mean: self.mean,
            count: 0,
            tally: self.tally,
        })
    }
}

// All lines, in order.
fn fold_lines(
    circuit: Circuit<'_>,
    observable: Observable<'_>,
    marks: &[bool],
    limits: Limits,
    rows: &mut Rows<'_>,
    index: &mut [u32],
) -> Result<Totals, Refusal>
    requires { RowsSumReady circuit.qubits limits observable.keys.now observable.weights.now circuit.ops.now rows.old }
    ensures { let t = task_of circuit.entry.qubits limits observable.entry.keys.now observable.entry.weights.now circuit.entry.ops.now in
        RowsFold limits result (fold_lines t marks.now t.lines nothing_yet) rows.old rows.new }
{
    let mut totals = Totals::none();
    for (i, weight) in observable.weights.iter().enumerate() {
        let start = starts::start_alone(observable.keys, i, limits, rows);
        let end = run_from(start, circuit.ops, marks, limits, rows, index)?;
        totals = totals.with_line(*weight, end);
    }
    Ok(totals)
}

// The fold of all lines. The rows hold anything after it, and so does the index.
pub(crate) fn fold(
    circuit: Circuit<'_>,
    observable: Observable<'_>,
    marks: &[bool],
    limits: Limits,
    rows: &mut Rows<'_>,
    index: &mut [u32],
) -> Result<Finished, Refusal>
    requires { RowsSumReady circuit.qubits limits observable.keys.now observable.weights.now circuit.ops.now rows.old }
    ensures { RowsEnd limits result
        (folded (task_of circuit.entry.qubits limits observable.entry.keys.now observable.entry.weights.now circuit.entry.ops.now) marks.now)
        rows.old rows.new }
{
    fold_lines(circuit, observable, marks, limits, rows, index)?.finished()
}
