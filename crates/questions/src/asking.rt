// A question put to a sheet, line by line.
ghost use Rattle.std.specs.Prelude.{◌≡◌};
ghost use Rattle.text.specs.Bytes.{parts, newline};
ghost use Rattle.questions.specs.Verdict.{Passed, verdict_of};
ghost use Rattle.questions.specs.Asking.{term_verdict, op_verdict, asked_verdict};

use crate::headtests::{ask_count, ask_head};
use crate::optests::op_refusal;
use crate::termtests::term_refusal;
use crate::{Asked, LaidOut, Refused};
use layout::cursor::{line_at, next_at, start_at};

// The first `term` line that is refused.
fn ask_terms(asked: Asked, laid: LaidOut<'_>) -> Result<(), Refused>
    ensures { verdict_of result ≡ term_verdict asked laid.entry.sheet.head (parts newline laid.entry.sheet.text.now) Passed }
{
    let mut at = start_at(laid.sheet.text, 0, 6);
    for i in 0..laid.sheet.head.terms {
        if let Some(by) = term_refusal(asked, laid.sheet.head, line_at(laid.sheet.text, at)) {
            return Err(Refused { by, line: 7 + i });
        }
        at = next_at(laid.sheet.text, at);
    }
    Ok(())
}

// The first op that is refused.
fn ask_ops(asked: Asked, laid: LaidOut<'_>) -> Result<(), Refused>
    ensures { verdict_of result ≡ op_verdict asked laid.entry.sheet.head (parts newline laid.entry.sheet.text.now) Passed }
{
    let first = 8 + laid.sheet.head.terms;
    for (i, op) in laid.ops.iter().enumerate() {
        if let Some(by) = op_refusal(asked, laid.sheet.head, *op) {
            return Err(Refused {
                by,
                line: first + i,
            });
        }
    }
    Ok(())
}

// The first line of the sheet that is refused.
pub(crate) fn ask(asked: Asked, laid: LaidOut<'_>) -> Result<(), Refused>
    ensures { verdict_of result ≡ asked_verdict asked laid.entry.sheet.head (parts newline laid.entry.sheet.text.now) Passed }
{
    ask_head(asked, laid.sheet.head)?;
    ask_terms(asked, laid)?;
    ask_count(asked, laid.sheet.head)?;
    ask_ops(asked, laid)
}
