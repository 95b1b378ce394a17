// The run of a sheet that passed the questions.
ghost use Rattle.std.specs.Prelude.{◌≡◌};
ghost use Rattle.sheet.specs.Answer.{limits_of};
ghost use Rattle.sheet.specs.Running.{Runnable, OnLent, Ended, table_run};

use layout::Head;
use ops::{Circuit, Limits, Observable, Op, Refusal, Run};
use runs::observable::{
    run_pauli_path_light_cone, run_pauli_path_weighted_observable, run_spd_observable_light_cone,
    run_spd_weighted_observable_with,
};
use turns::all::run_spd_lowered;
use turns::{Finished, Memory};

// The run that the sheet names, of the lines in a table and the ops in a slice.
pub(crate) fn run_table(
    head: Head,
    ops: &[Op],
    observable: Observable<'_>,
    memory: &mut Memory<'_>,
    means: &mut [f64],
) -> Result<Finished, Refusal>
    requires { Runnable head observable.keys.now observable.weights.now ops.now memory.old.words.now memory.old.coeffs.now means.old }
    ensures { OnLent (Ended head (table_run head observable.entry.keys.now observable.entry.weights.now ops.now) result)
        memory.old memory.new means.old means.new }
{
    let limits = limits_of(head);
    let circuit = Circuit::new(head.qubits, ops);
    match head.run {
        Run::Full => run_spd_weighted_observable_with(circuit, observable, limits, memory),
        Run::Cone => run_spd_observable_light_cone(circuit, observable, limits, memory),
        Run::All => run_spd_lowered(circuit, limits, memory, means),
        Run::Path => run_pauli_path_weighted_observable(circuit, observable, limits, memory),
        Run::Wide => run_pauli_path_light_cone(circuit, observable, limits, memory),
    }
}

fn limits_of(head: Head) -> Limits
    ensures { result ≡ limits_of head }
{
    Limits {
        epsilon: head.epsilon,
        max_terms: head.max_terms,
        limit: head.limit,
    }
}
