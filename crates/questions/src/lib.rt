// Questions 1 to 7 and 11 put to a sheet: the first that is answered no, and its line.
#![tactic(auto)]

ghost use Rattle.std.specs.Prelude.{◌≡◌, ◌≤◌, None, cond};
ghost use Rattle.text.specs.Bytes.{parts, newline};
ghost use Rattle.layout.specs.Layout.{question1, sheet_ops};
ghost use Rattle.ops.specs.Refusals.{number_of};
ghost use Rattle.questions.specs.Verdict.{RefusedAt, Passed, verdict_of};

mod asking;
mod headtests;
mod optests;
mod termtests;
pub mod verdicts;

use layout::Sheet;
use ops::{Op, Refusal};

// The questions that are put to the whole of a sheet's values, one before the next. 5 and 6 are put together, line by line.
#[derive(Clone, Copy)]
pub enum Asked {
    Two,
    Three,
    Four,
    FiveAndSix,
    Eleven,
}

// The first question that is answered no, and its line, counted from 1; line 0 where it is of no line.
// The 0 is the document's line of a refusal that is of no line, and the number that is printed.
#[derive(Clone, Copy, PartialEq, Eq)]
pub struct Refused {
    pub by: Refusal,
    pub line: usize,
}

impl Refused {
    // Refused at a line, unless the answer is yes.
    fn unless(fits: bool, by: Refusal, line: usize) -> Result<(), Refused>
        ensures { verdict_of result ≡ cond fits Passed (RefusedAt (number_of by) line) }
    {
        if fits {
            Ok(())
        } else {
            Err(Refused { by, line })
        }
    }
}

// A sheet that questions 1 and 2 pass, and its ops.
#[derive(Clone, Copy)]
pub struct LaidOut<'a> {
    pub sheet: Sheet<'a>,
    pub ops: &'a [Op],
    ghost laid: { question1 sheet.head (parts newline sheet.text.now) ≡ None },
    ghost qubits: { sheet.head.qubits ≤ 256 },
    ghost limit: { sheet.head.limit ≤ 1048576 },
    ghost terms: { sheet.head.terms ≤ 1024 },
    ghost op_count: { sheet.head.ops ≤ 4096 },
    ghost op_list: { ops.now ≡ sheet_ops sheet.head (parts newline sheet.text.now) },
}
