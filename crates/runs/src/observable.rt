// The runs of a sum that make their own marks. They are four functions of three lines each: one function over a closure that makes the marks would still
// need a contract and a name for each run.
ghost use Rattle.ops.specs.Marks.{mark_path};
ghost use Rattle.turns.specs.SumRuns.{SumRan};
ghost use Rattle.turns.specs.Lent.{OnMemory};
ghost use Rattle.runs.specs.ConeRuns.{Slices, FullRan, ConeRan, WideRan};

use ops::marks::{full_marks, inverse_light_cone, path_marks, wide_marks};
use ops::{Circuit, Limits, Observable, Refusal};
use turns::sum::run_sum;
use turns::{Finished, Memory};
use words::rows::width;

// Every f64 is a binary64: the prover knows it of a slice that is itself a parameter.
fn fits64(weights: &[f64], circuit: Circuit<'_>, limits: Limits)
    ensures { Slices weights.now circuit.entry.ops.now limits }
{}

// `full`: every op.
pub fn run_spd_weighted_observable_with(
    circuit: Circuit<'_>,
    observable: Observable<'_>,
    limits: Limits,
    memory: &mut Memory<'_>,
) -> Result<Finished, Refusal>
    ensures { OnMemory (FullRan circuit.entry.qubits limits observable.entry.keys.now observable.entry.weights.now circuit.entry.ops.now result)
        memory.old memory.new }
{
    fits64(observable.weights, circuit, limits);
    let mut marks = [false; 4096];
    full_marks(circuit.ops, &mut marks);
    run_sum(circuit, observable, &marks, limits, memory)
}

// `cone`: the ops in the inverse light cone of the first line's word.
pub fn run_spd_observable_light_cone(
    circuit: Circuit<'_>,
    observable: Observable<'_>,
    limits: Limits,
    memory: &mut Memory<'_>,
) -> Result<Finished, Refusal>
    ensures { OnMemory (ConeRan circuit.entry.qubits limits observable.entry.keys.now observable.entry.weights.now circuit.entry.ops.now result)
        memory.old memory.new }
{
    fits64(observable.weights, circuit, limits);
    let mut marks = [false; 4096];
    let w = width(circuit.qubits);
    inverse_light_cone(circuit.ops, w, observable.keys, &mut marks);
    run_sum(circuit, observable, &marks, limits, memory)
}

// `path`: every op but barriers.
pub fn run_pauli_path_weighted_observable(
    circuit: Circuit<'_>,
    observable: Observable<'_>,
    limits: Limits,
    memory: &mut Memory<'_>,
) -> Result<Finished, Refusal>
    ensures { OnMemory
        (SumRan circuit.entry.qubits limits observable.entry.keys.now observable.entry.weights.now circuit.entry.ops.now (mark_path circuit.entry.ops.now) result)
        memory.old memory.new }
{
    let mut marks = [false; 4096];
    path_marks(circuit.ops, &mut marks);
    run_sum(circuit, observable, &marks, limits, memory)
}

// `wide`: the ops in the cone grown from the words of all lines, as far as the keys have them.
pub fn run_pauli_path_light_cone(
    circuit: Circuit<'_>,
    observable: Observable<'_>,
    limits: Limits,
    memory: &mut Memory<'_>,
) -> Result<Finished, Refusal>
    ensures { OnMemory (WideRan circuit.entry.qubits limits observable.entry.keys.now observable.entry.weights.now circuit.entry.ops.now result)
        memory.old memory.new }
{
    let mut marks = [false; 4096];
    wide_marks(circuit.ops, width(circuit.qubits), observable, &mut marks);
    run_sum(circuit, observable, &marks, limits, memory)
}
