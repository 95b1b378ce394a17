// The answer to a sheet.
ghost use Rattle.std.specs.Prelude.{◌≡◌, ◌*◌, ◌≤◌, length};
ghost use Rattle.words.specs.Keys.{width_of};
ghost use Rattle.rows.specs.Rows.{rows_in};
ghost use Rattle.text.specs.Bytes.{parts, newline};
ghost use Rattle.questions.specs.Verdict.{Passed};
ghost use Rattle.questions.specs.Questions.{verdict, early_verdict};
ghost use Rattle.sheet.specs.Answer.{Answered};
ghost use Rattle.sheet.specs.Running.{LinesRoom, OnLent, Replied, RepliedLater};

use crate::replying::{refusal, reply_end};
use crate::running::run_table;
use layout::Sheet;
use layout::heads::read_head;
use layout::loads::{load_lines, load_ops};
use ops::{Observable, Op};
use questions::LaidOut;
use questions::verdicts::{early_verdict, later_verdict};
use replies::Reply;
use rows::Rows;
use rows::row::rows_in;
use runs::counts::run_t_count;
use turns::Memory;
use words::Gate;
use words::rows::width;

// A sheet that passed every question: its lines go into a table, and its run begins.
fn answer_passed(
    laid: LaidOut<'_>,
    mut table: Rows<'_>,
    memory: &mut Memory<'_>,
    means: &mut [f64],
) -> Reply
    requires passed { verdict laid.sheet.head (parts newline laid.sheet.text.now)
        (rows_in (width_of laid.sheet.head.qubits) memory.old.words.now memory.old.coeffs.now) (length means.old) ≡ Passed }
    requires room { LinesRoom laid.sheet.head table }
    ensures { OnLent (Replied laid.entry.sheet.head (parts newline laid.entry.sheet.text.now) Passed result)
        memory.old memory.new means.old means.new }
{
    let head = laid.sheet.head;
    load_lines(laid.sheet, &mut table);
    let Rows { words, coeffs, .. } = table;
    let observable = Observable {
        keys: words,
        weights: &coeffs[..head.terms],
    };
    let t_count = run_t_count(head.run, laid.ops);
    let end = run_table(head, laid.ops, observable, memory, means);
    reply_end(head.run, head.qubits, t_count, end)
}

// A sheet that passed questions 1 and 2, with a slice that has room for its ops and a table that has room for its lines.
fn answer_in(
    sheet: Sheet<'_>,
    ops: &mut [Op],
    table: Rows<'_>,
    memory: &mut Memory<'_>,
    means: &mut [f64],
) -> Reply
    requires early { early_verdict sheet.head (parts newline sheet.text.now) ≡ Passed }
    requires ops_room { sheet.head.ops ≤ length ops.old }
    requires lines_room { LinesRoom sheet.head table }
    ensures { OnLent (RepliedLater sheet.entry.head (parts newline sheet.entry.text.now) result)
        memory.old memory.new means.old means.new }
{
    load_ops(sheet, ops);
    let head = sheet.head;
    let laid = LaidOut {
        sheet,
        ops: &ops[..head.ops],
    };
    let rows = rows_in(memory.words.len(), memory.coeffs.len(), width(head.qubits));
    match later_verdict(laid, rows, means.len()) {
        Err(refused) => refusal(refused),
        Ok(()) => answer_passed(laid, table, memory, means),
    }
}

// A sheet that passed questions 1 and 2, with a slice for so many ops and a table for so many lines, of 8 words each.
fn answer_table<const OPS: usize, const WORDS: usize, const LINES: usize>(
    sheet: Sheet<'_>,
    memory: &mut Memory<'_>,
    means: &mut [f64],
) -> Reply
    requires early { early_verdict sheet.head (parts newline sheet.text.now) ≡ Passed }
    requires ops_room { (sheet.head.ops ≤ OPS) × (OPS ≤ 4096) }
    requires lines_room { (sheet.head.terms ≤ LINES) × (LINES ≤ 1024) }
    requires words_room { WORDS ≡ 8 * LINES }
    ensures { OnLent (RepliedLater sheet.entry.head (parts newline sheet.entry.text.now) result)
        memory.old memory.new means.old means.new }
{
    // This op is all zero bits, so that the slice is set in one pass, as the words are.
    let mut ops = [Op::Native(Gate::Id, 0, 0); OPS];
    let mut keys = [0u64; WORDS];
    let mut weights = [0.0f64; LINES];
    let table = Rows {
        words: &mut keys,
        coeffs: &mut weights,
        w: width(sheet.head.qubits),
    };
    answer_in(sheet, &mut ops, table, memory, means)
}

// A sheet that passed questions 1 and 2. Setting a slice of 4,096 ops takes longer than most sheets of at most 128 ops and 16 lines.
fn answer_laid(sheet: Sheet<'_>, memory: &mut Memory<'_>, means: &mut [f64]) -> Reply
    requires { early_verdict sheet.head (parts newline sheet.text.now) ≡ Passed }
    ensures { OnLent (RepliedLater sheet.entry.head (parts newline sheet.entry.text.now) result)
        memory.old memory.new means.old means.new }
{
    if sheet.head.ops <= 128 && sheet.head.terms <= 16 {
        answer_table::<128, 128, 16>(sheet, memory, means)
    } else {
        answer_table::<4096, 8192, 1024>(sheet, memory, means)
    }
}

// The answer to the bytes of a sheet, for every sheet and every length of the buffers: the reply, the final terms in the rows, and for `all`
// the means in the first mean places. The index is memory for looking up rows, used if it is long enough; after a run it is zeros. The
// slices are parameters of their own, as C lends them.
pub fn answer(
    s: &[u8],
    words: &mut [u64],
    coeffs: &mut [f64],
    index: &mut [u32],
    means: &mut [f64],
) -> Reply
    ensures { Answered s.now result
        words.old words.new coeffs.old coeffs.new means.old means.new index.old index.new }
{
    let sheet = Sheet {
        text: s,
        head: read_head(s),
    };
    match early_verdict(sheet) {
        Err(refused) => refusal(refused),
        Ok(()) => {
            let mut memory = Memory {
                words,
                coeffs,
                index,
            };
            answer_laid(sheet, &mut memory, means)
        }
    }
}
