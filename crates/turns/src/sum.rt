// A run of the sum of the lines, under any marks: the sum, or the fold.
ghost use Rattle.std.specs.Prelude.{◌≡◌};
ghost use Rattle.ops.specs.LineTable.{task_of};
ghost use Rattle.dynamics.specs.Outcome.{sum_run};
ghost use Rattle.turns.specs.SumRuns.{sum_fits, SumRan};
ghost use Rattle.turns.specs.Folding.{meets_nine, RowsSumReady};
ghost use Rattle.turns.specs.Lent.{OnMemory};
ghost use Rattle.turns.specs.Told.{RowsEnd};

use crate::run::run_from;
use crate::{Finished, Memory, fold, starts};
use ops::{Circuit, Limits, Observable, Refusal, sizes};
use rows::Rows;
use words::rows::width;

// Whether a sum of so many lines is folded: it met 9.
fn meets_nine(lines: usize, end: Result<Finished, Refusal>) -> bool
    ensures { result ≡ meets_nine lines end }
{
    matches!(end, Err(Refusal::TooMany)) && 1 < lines
}

// The sum of the lines, or the fold if the sum meets 9. Past the final terms the rows hold anything, and so does the index.
fn sum_rows(
    circuit: Circuit<'_>,
    observable: Observable<'_>,
    marks: &[bool],
    limits: Limits,
    rows: &mut Rows<'_>,
    index: &mut [u32],
) -> Result<Finished, Refusal>
    requires { RowsSumReady circuit.qubits limits observable.keys.now observable.weights.now circuit.ops.now rows.old }
    ensures { RowsEnd limits result
        (sum_run (task_of circuit.entry.qubits limits observable.entry.keys.now observable.entry.weights.now circuit.entry.ops.now) marks.now)
        rows.old rows.new }
{
    let start = starts::start_lines(observable, limits, rows, index);
    let end = run_from(start, circuit.ops, marks, limits, rows, index);
    if meets_nine(observable.weights.len(), end) {
        return fold::fold(circuit, observable, marks, limits, rows, index);
    }
    end
}

// Question 2.
fn sum_fits(circuit: Circuit<'_>, observable: Observable<'_>, limits: Limits) -> bool
    ensures { result ≡ sum_fits circuit.entry.qubits limits observable.entry.keys.now observable.entry.weights.now circuit.entry.ops.now }
{
    let lines = observable.weights.len();
    sizes::counts_fit(circuit.qubits, limits.limit, lines, circuit.ops.len())
        && sizes::has_lines(width(circuit.qubits), observable)
}

// The sum of the lines of a table, under any marks, by the ops of a circuit, from the last to the first, whatever the rows hold. Counts that
// question 2 does not allow, and lines that the keys do not have, are refused with 2, too few rows with 7; then nothing changes. Else the
// rows hold the final terms in order, then zeros, and the index zeros; a run that 8 or 9 refuses, and a fold, leave zeros.
pub fn run_sum(
    circuit: Circuit<'_>,
    observable: Observable<'_>,
    marks: &[bool],
    limits: Limits,
    memory: &mut Memory<'_>,
) -> Result<Finished, Refusal>
    ensures { OnMemory
        (SumRan circuit.entry.qubits limits observable.entry.keys.now observable.entry.weights.now circuit.entry.ops.now marks.now result)
        memory.old memory.new }
{
    if !sum_fits(circuit, observable, limits) {
        return Err(Refusal::Counts);
    }
    let mut rows = Rows {
        words: memory.words,
        coeffs: memory.coeffs,
        w: width(circuit.qubits),
    };
    let count = rows.count();
    if count / 2 < limits.limit {
        return Err(Refusal::Room);
    }
    let end = sum_rows(circuit, observable, marks, limits, &mut rows, memory.index);
    let left = end.map_or(0, |finished| finished.count);
    rows.clear(left, count);
    branches::chains::clear(memory.index);
    end
}
