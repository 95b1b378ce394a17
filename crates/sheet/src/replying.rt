// The reply that stands for a refusal, or for the end of a run.
ghost use Rattle.std.specs.Prelude.{◌≡◌};
ghost use Rattle.ops.specs.Refusals.{number_of};
ghost use Rattle.sheet.specs.Answer.{refusal};
ghost use Rattle.sheet.specs.Running.{means_count, reply_end};

use numbers::shown::shown;
use ops::{Refusal, Run};
use questions::Refused;
use replies::Reply;
use turns::Finished;

// A refusal's number and line, and zeros for all results.
pub(crate) fn refusal(refused: Refused) -> Reply
    ensures { result ≡ refusal (number_of refused.by) refused.line }
{
    Reply {
        status: refused.by.number(),
        line: refused.line,
        mean: 0.0,
        shown: 0,
        t_count: 0,
        peak_terms: 0,
        touched: 0,
        discarded: 0.0,
        means: 0,
    }
}

fn means_count(run: Run, qubits: usize) -> usize
    ensures { result ≡ means_count run qubits }
{
    if matches!(run, Run::All) { qubits } else { 0 }
}

// The reply to the end of a run, with the t count of its ops.
pub(crate) fn reply_end(
    run: Run,
    qubits: usize,
    t_count: usize,
    end: Result<Finished, Refusal>,
) -> Reply
    ensures { result ≡ reply_end run qubits t_count end }
{
    match end {
        Err(by) => refusal(Refused { by, line: 0 }),
        Ok(Finished { mean, tally, .. }) => Reply {
            status: 0,
            line: 0,
            mean,
            shown: shown(mean),
            t_count,
            peak_terms: tally.peak,
            touched: tally.touched,
            discarded: tally.discarded,
            means: means_count(run, qubits),
        },
    }
}
