// What the questions ask of one op.
ghost use Rattle.std.specs.Prelude.{◌≡◌};
ghost use Rattle.ops.specs.Ops.{shape_of, targets};
ghost use Rattle.ops.specs.Refusals.{number_of};
ghost use Rattle.ops.specs.Sets.{list_of};
ghost use Rattle.ops.specs.Task.{not_channel, reals_fit, pair_holds, distinct_targets};
ghost use Rattle.lines.specs.TermLines.{all_below};
ghost use Rattle.questions.specs.Verdict.{number_in};
ghost use Rattle.questions.specs.Questions.{channel_fits, fault_of};
ghost use Rattle.questions.specs.Asking.{number_unless, op_number};

use crate::Asked;
use layout::Head;
use numbers::pairs::{is_angle, is_mix};
use numbers::tests::{in_sine, in_unit};
use ops::marks::{Targets, targets_of};
use ops::{Op, Refusal, Run};

// What refuses a line, unless the answer is yes.
pub(crate) fn refusal_unless(fits: bool, by: Refusal) -> Option<Refusal>
    ensures { number_in result ≡ number_unless fits (number_of by) }
{
    if fits { None } else { Some(by) }
}

// Questions 5 and 6 of one line, 5 before 6: whether its qubits are below `qubits`, and whether they are distinct.
pub(crate) fn qubits_refusal(below: bool, distinct: bool) -> Option<Refusal>
    ensures { number_in result ≡ fault_of below distinct }
{
    if !below {
        return Some(Refusal::Qubits);
    }
    refusal_unless(distinct, Refusal::Repeats)
}

fn is_no_channel(op: Op) -> bool
    ensures { result ≡ not_channel (shape_of op).sort }
{
    !matches!(
        op,
        Op::Pauli(_, _, _, _)
            | Op::Depol(_, _)
            | Op::Damp(_, _)
            | Op::Phase(_, _)
            | Op::Thermal(_, _, _, _)
            | Op::Depol2(_, _, _)
    )
}

// Question 3: channels stand only in `path`, and in `wide`, which counts as it.
fn channel_fits(run: Run, op: Op) -> bool
    ensures { result ≡ channel_fits run op }
{
    match run {
        Run::Full | Run::Cone | Run::All => is_no_channel(op),
        Run::Path | Run::Wide => true,
    }
}

// Question 4: sines and cosines from -1 to 1, rates from 0 to 1.
#[tactic(auto, unfolding(ops::specs::Task::every))]
fn reals_fit(op: Op) -> bool
    ensures { result ≡ reals_fit op }
{
    match op {
        Op::Rz(_, s, c) | Op::P(_, s, c) | Op::Rzz(_, _, s, c) => in_sine(s) && in_sine(c),
        Op::Pauli(_, x, y, z) | Op::Thermal(_, x, y, z) => in_unit(x) && in_unit(y) && in_unit(z),
        Op::Depol(_, p) | Op::Damp(_, p) | Op::Phase(_, p) | Op::Depol2(_, _, p) => in_unit(p),
        Op::Native(_, _, _) | Op::T(_) | Op::Tdg(_) | Op::Barrier => true,
    }
}

// Question 11: the pair of a rotation is an angle, and the rates of pauli sum to at most 1.
fn pair_holds(op: Op) -> bool
    ensures { result ≡ pair_holds op }
{
    match op {
        Op::Rz(_, s, c) | Op::P(_, s, c) | Op::Rzz(_, _, s, c) => is_angle(s, c),
        Op::Pauli(_, x, y, z) => is_mix(x, y, z),
        _ => true,
    }
}

// Question 5: every target is below the number of qubits.
#[tactic(auto, unfolding(ops::specs::Task::every))]
fn are_below(t: Targets, n: usize) -> bool
    ensures { result ≡ all_below n (list_of t) }
{
    match t {
        Targets::Nothing => true,
        Targets::One(a) => a < n,
        Targets::Two(a, b) => a < n && b < n,
    }
}

// Question 6: two targets are distinct.
fn are_distinct(t: Targets) -> bool
    ensures { result ≡ distinct_targets (list_of t) }
{
    match t {
        Targets::Two(a, b) => a != b,
        Targets::Nothing | Targets::One(_) => true,
    }
}

// What refuses an op.
pub(crate) fn op_refusal(asked: Asked, head: Head, op: Op) -> Option<Refusal>
    ensures { number_in result ≡ op_number asked head op }
{
    match asked {
        Asked::Two => None,
        Asked::Three => refusal_unless(channel_fits(head.run, op), Refusal::RunLines),
        Asked::Four => refusal_unless(reals_fit(op), Refusal::Reals),
        Asked::FiveAndSix => {
            let t = targets_of(op);
            qubits_refusal(are_below(t, head.qubits), are_distinct(t))
        }
        Asked::Eleven => refusal_unless(pair_holds(op), Refusal::Angles),
    }
}
