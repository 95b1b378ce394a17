// The verdict on a sheet: the first question that is answered no, and its line.
ghost use Rattle.std.specs.Prelude.{◌≡◌, ◌≤◌};
ghost use Rattle.text.specs.Bytes.{parts, newline};
ghost use Rattle.questions.specs.Verdict.{verdict_of};
ghost use Rattle.questions.specs.Questions.{places_fit, room_verdict, early_verdict, later_verdict};

use crate::asking::ask;
use crate::headtests::{ask_count, ask_head};
use crate::{Asked, LaidOut, Refused};
use layout::laid::first_bad_line;
use layout::{Head, Sheet};
use ops::{Refusal, Run};

// Questions 1 and 2, which asks nothing of a `term` or an `op` line.
pub fn early_verdict(sheet: Sheet<'_>) -> Result<(), Refused>
    ensures { verdict_of result ≡ early_verdict sheet.entry.head (parts newline sheet.entry.text.now) }
{
    let head = sheet.head;
    if let Some(line) = first_bad_line(sheet.text, head.terms, head.ops) {
        return Err(Refused {
            by: Refusal::Layout,
            line,
        });
    }
    ask_head(Asked::Two, head)?;
    ask_count(Asked::Two, head)
}

fn places_fit(run: Run, qubits: usize, places: usize) -> bool
    ensures { result ≡ places_fit run qubits places }
{
    !matches!(run, Run::All) || qubits <= places
}

// Question 7: rows for twice limit, and for `all` a mean place for each qubit.
fn ask_room(head: Head, rows: usize, places: usize) -> Result<(), Refused>
    requires { head.limit ≤ 1048576 }
    ensures { verdict_of result ≡ room_verdict head rows places }
{
    let fits = 2 * head.limit <= rows && places_fit(head.run, head.qubits, places);
    Refused::unless(fits, Refusal::Room, 0)
}

// Questions 3 to 7 of a sheet that passed 1 and 2: 11 after 4, and 5 and 6 line by line.
pub fn later_verdict(laid: LaidOut<'_>, rows: usize, places: usize) -> Result<(), Refused>
    ensures { verdict_of result ≡ later_verdict laid.entry.sheet.head (parts newline laid.entry.sheet.text.now) rows places }
{
    ask(Asked::Three, laid)?;
    ask(Asked::Four, laid)?;
    ask(Asked::Eleven, laid)?;
    ask(Asked::FiveAndSix, laid)?;
    ask_room(laid.sheet.head, rows, places)
}
