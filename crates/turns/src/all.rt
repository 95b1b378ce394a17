// One Z mean for each qubit.
ghost use Rattle.std.specs.Prelude.{◌≡◌, ◌*◌, ◌^◌, ◌≤◌, ◌<◌, length};
ghost use Rattle.words.specs.Keys.{width_of};
ghost use Rattle.rows.specs.Rows.{rows_in};
ghost use Rattle.rows.specs.Lent.{row_count, OnRows};
ghost use Rattle.dynamics.specs.Runs.{marked_run};
ghost use Rattle.dynamics.specs.Outcome.{z_state};
ghost use Rattle.turns.specs.AllRuns.{all_held, all_asked, AllRan};
ghost use Rattle.turns.specs.Means.{early_all, asked_by, tallied, all_to, AllReady, Answers, AllTold, AllLeaves};
ghost use Rattle.turns.specs.Lent.{OnMemory};

use crate::run::run_from;
use crate::{Finished, Memory, Tally, starts};
use ops::{Circuit, Limits, Op, Refusal, marks, sizes};
use rows::Rows;
use words::rows::width;

// The questions before the first run.
fn asked(circuit: Circuit<'_>, limits: Limits, rows: usize, places: usize) -> Result<(), Refusal>
    ensures { asked_by result ≡ early_all circuit.entry.qubits limits circuit.entry.ops.now rows places }
{
    if !sizes::counts_fit(circuit.qubits, limits.limit, 0, circuit.ops.len()) {
        return Err(Refusal::Counts);
    }
    if rows / 2 < limits.limit || places < circuit.qubits {
        return Err(Refusal::Room);
    }
    Ok(())
}

// The run from Z at qubit q. `before` is the tally of the runs before it.
fn run_z(
    q: usize,
    before: Tally,
    ops: &[Op],
    marks: &[bool],
    limits: Limits,
    rows: &mut Rows<'_>,
    index: &mut [u32],
) -> Result<Finished, Refusal>
    requires { (1 ≤ limits.limit) × (rows.old.w ≤ 4) × (q < 64 * rows.old.w) × (2 * limits.limit ≤ row_count rows.old) × (limits.limit ≤ 1048576) × (length ops.now ≤ 4096) }
    ensures { let run = marked_run rows.old.w limits marks.now ops.now (z_state rows.old.w q (tallied before)) in
        OnRows (λ ws ws' cs cs'. Answers rows.old.w result ws ws' cs cs' run) rows.old rows.new }
{
    let start = starts::start_z(q, before, limits, rows);
    run_from(start, ops, marks, limits, rows, index)
}

// The runs of all qubits, in order, with one tally.
fn all_rows(
    circuit: Circuit<'_>,
    marks: &[bool],
    limits: Limits,
    rows: &mut Rows<'_>,
    index: &mut [u32],
    means: &mut [f64],
) -> Result<Tally, Refusal>
    requires { AllReady rows.old.w circuit.qubits limits circuit.ops.now rows.old.words.now rows.old.coeffs.now means.old }
    ensures { let run = all_to rows.old.w limits marks.now circuit.entry.ops.now circuit.entry.qubits in
        OnRows (λ ws ws' cs cs'. AllTold rows.old.w circuit.entry.qubits result ws ws' cs cs' means.old means.new run) rows.old rows.new }
{
    let ops = circuit.ops;
    let mut tally = Tally::begun(0);
    for q in 0..circuit.qubits {
        let end = run_z(q, tally, ops, marks, limits, rows, index)?;
        means[q] = end.mean;
        let touched = tally.touched + end.tally.touched;
        tally = Tally {
            touched,
            ..end.tally
        };
    }
    Ok(tally)
}

// The runs of all qubits; then every row and the index are set to zero, and after a refusal the mean of every qubit.
fn all_marked(
    circuit: Circuit<'_>,
    marks: &[bool],
    limits: Limits,
    rows: &mut Rows<'_>,
    index: &mut [u32],
    means: &mut [f64],
) -> Result<Finished, Refusal>
    requires { AllReady rows.old.w circuit.qubits limits circuit.ops.now rows.old.words.now rows.old.coeffs.now means.old }
    ensures { let run = all_to rows.old.w limits marks.now circuit.entry.ops.now circuit.entry.qubits in
        OnRows (λ ws ws' cs cs'. AllLeaves rows.old.w circuit.entry.qubits result ws ws' cs cs' means.old means.new index.old index.new run) rows.old rows.new }
{
    let count = rows.count();
    let end = all_rows(circuit, marks, limits, rows, index, means);
    rows.clear(0, count);
    branches::chains::clear(index);
    match end {
        Ok(tally) => Ok(Finished {
            mean: 0.0,
            count: 0,
            tally,
        }),
        Err(refusal) => {
            means[..circuit.qubits].fill(0.0);
            Err(refusal)
        }
    }
}

// One mean for each qubit, in the first mean places: qubit after qubit, the run of the ops from Z at that qubit alone, with one running
// discarded weight and the greatest peak. Counts that question 2 does not allow are refused with 2, too few rows or mean places with 7; then
// nothing changes. Else every row and the index are zero at the end, and if 8 or 9 refuses a qubit's run, so is the mean of every qubit.
pub fn run_spd_lowered(
    circuit: Circuit<'_>,
    limits: Limits,
    memory: &mut Memory<'_>,
    means: &mut [f64],
) -> Result<Finished, Refusal>
    ensures { let rows = rows_in (width_of circuit.entry.qubits) memory.old.words.now memory.old.coeffs.now in
        let held = all_held circuit.entry.qubits limits circuit.entry.ops.now rows (length means.old) in
        let run = all_asked circuit.entry.qubits limits circuit.entry.ops.now rows (length means.old) in
        OnMemory (λ ws ws' cs cs' ix ix'. AllRan circuit.entry.qubits held run result ws ws' cs cs' means.old means.new ix ix') memory.old memory.new }
{
    let mut rows = Rows {
        words: memory.words,
        coeffs: memory.coeffs,
        w: width(circuit.qubits),
    };
    asked(circuit, limits, rows.count(), means.len())?;
    let mut marks = [false; 4096];
    marks::full_marks(circuit.ops, &mut marks);
    all_marked(circuit, &marks, limits, &mut rows, memory.index, means)
}
