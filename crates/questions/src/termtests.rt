// What the questions ask of one `term` line.
ghost use Rattle.std.specs.Prelude.{◌≡◌, ◌≤◌};
ghost use Rattle.lines.specs.TermLines.{line_on};
ghost use Rattle.questions.specs.Verdict.{number_in};
ghost use Rattle.questions.specs.Questions.{weight_fits};
ghost use Rattle.questions.specs.Asking.{term_number};

use crate::Asked;
use crate::optests::{qubits_refusal, refusal_unless};
use layout::Head;
use lines::termlines::{factors_below, factors_distinct, weight_on};
use numbers::tests::is_finite;
use ops::{Refusal, Run};

// Question 3: the term of `cone` has weight 1.0.
fn weight_fits(run: Run, x: f64) -> bool
    ensures { result ≡ weight_fits run x }
{
    !matches!(run, Run::Cone) || x == 1.0
}

// What refuses a `term` line. Its factors are told apart by a set of 256 qubits: on a line that 5 does not refuse, all are below 256.
#[tactic(auto, using(crate::proofs::WalkLaws::fault_by_set), unfolding(lines::specs::TermLines::line_on))]
pub(crate) fn term_refusal(asked: Asked, head: Head, l: &[u8]) -> Option<Refusal>
    requires { head.qubits ≤ 256 }
    ensures { number_in result ≡ term_number asked head (line_on l.now) }
{
    match asked {
        Asked::Two | Asked::Eleven => None,
        Asked::Three => refusal_unless(weight_fits(head.run, weight_on(l)), Refusal::RunLines),
        Asked::Four => refusal_unless(is_finite(weight_on(l)), Refusal::Reals),
        Asked::FiveAndSix => qubits_refusal(factors_below(l, head.qubits), factors_distinct(l)),
    }
}
