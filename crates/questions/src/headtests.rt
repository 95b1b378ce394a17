// What the questions ask of the lines `qubits` to `terms`, and of `ops`.
ghost use Rattle.std.specs.Prelude.{◌≡◌, ◌≤◌};
ghost use Rattle.questions.specs.Verdict.{Passed, verdict_of};
ghost use Rattle.questions.specs.Questions.{count_fits};
ghost use Rattle.questions.specs.Asking.{head_verdict, count_verdict};

use crate::{Asked, Refused};
use layout::Head;
use numbers::tests::is_epsilon;
use ops::{Refusal, Run};

// Question 3: `cone` has one term, `all` none.
fn count_fits(run: Run, terms: usize) -> bool
    ensures { result ≡ count_fits run terms }
{
    match run {
        Run::Cone => terms == 1,
        Run::All => terms == 0,
        Run::Full | Run::Path | Run::Wide => true,
    }
}

// The first of the lines `qubits` (1) to `terms` (6) at which the answer is no.
pub(crate) fn ask_head(asked: Asked, head: Head) -> Result<(), Refused>
    ensures { verdict_of result ≡ head_verdict asked head Passed }
{
    let Head {
        qubits,
        run,
        epsilon,
        limit,
        terms,
        ..
    } = head;
    match asked {
        Asked::Two => {
            Refused::unless((1..=256).contains(&qubits), Refusal::Counts, 1)?;
            Refused::unless((1..=1_048_576).contains(&limit), Refusal::Counts, 5)?;
            Refused::unless(terms <= 1024 && terms <= limit, Refusal::Counts, 6)
        }
        Asked::Three => Refused::unless(count_fits(run, terms), Refusal::RunLines, 6),
        Asked::Four => Refused::unless(is_epsilon(epsilon), Refusal::Reals, 3),
        Asked::FiveAndSix | Asked::Eleven => Ok(()),
    }
}

// The line `ops`: question 2 alone asks of it.
pub(crate) fn ask_count(asked: Asked, head: Head) -> Result<(), Refused>
    requires { head.terms ≤ 1024 }
    ensures { verdict_of result ≡ count_verdict asked head Passed }
{
    let fits = !matches!(asked, Asked::Two) || head.ops <= 4096;
    Refused::unless(fits, Refusal::Counts, 7 + head.terms)
}
