// The op list of a sheet in a slice, and its `term` lines as a table.
ghost use Rattle.std.specs.Prelude.{◌≡◌, ◌*◌, leb};
ghost use Rattle.text.specs.Bytes.{parts, newline};
ghost use Rattle.terms.specs.Lists.{foldl};
ghost use Rattle.terms.specs.Term.{term};
ghost use Rattle.rows.specs.Rows.{Stored};
ghost use Rattle.rows.specs.Lent.{row_key, OnRows};
ghost use Rattle.rows.specs.There.{HasRow, HasRows};
ghost use Rattle.lines.specs.TermLines.{weight_on, factors_on, placed};
ghost use Rattle.layout.specs.Loaded.{with_ops, keys_with, weights_with, LinesLoaded};

use crate::Sheet;
use crate::cursor::{line_at, next_at, start_at};
use lines::oplines::op_on;
use lines::termlines::{place_factors, weight_on};
use ops::Op;
use rows::Rows;
use words::rows::rows_of;

// Writes the first ops of a sheet to the first places of a slice, at most 4,096 and as many as there are places.
pub fn load_ops(sheet: Sheet<'_>, ops: &mut [Op])
    ensures { ops.new ≡ with_ops sheet.entry.head (parts newline sheet.entry.text.now) ops.old }
{
    let s = sheet.text;
    let mut at = start_at(s, start_at(s, 0, 7), sheet.head.terms);
    for i in 0..sheet.head.ops.min(4096).min(ops.len()) {
        ops[i] = op_on(line_at(s, at));
        at = next_at(s, at);
    }
}

// Writes a `term` line to line i of a table: the factors set their bits, and the weight is stored.
fn fill_line(l: &[u8], i: usize, table: &mut Rows<'_>)
    requires { HasRow table.old i }
    ensures { OnRows (Stored (2 * table.old.w) i (term (foldl (placed table.old.w) (row_key table.old i) (factors_on l.now)) (weight_on l.now)))
        table.old table.new }
{
    let w = table.w;
    let base = i * (2 * w);
    place_factors(l, w, &mut table.words[base..base + 2 * w]);
    table.coeffs[i] = weight_on(l);
}

// Writes the n lines after the first 6 to the first n lines of a table.
fn fill_lines(s: &[u8], n: usize, table: &mut Rows<'_>)
    requires { HasRows table.old n }
    ensures { OnRows (λ ks ks' vs vs'. (ks' ≡ keys_with table.old.w n (parts newline s.now) ks) × (vs' ≡ weights_with n (parts newline s.now) vs))
        table.old table.new }
{
    let mut at = start_at(s, 0, 6);
    for i in 0..n {
        fill_line(line_at(s, at), i, table);
        at = next_at(s, at);
    }
}

// Whether n rows of 2 * w words fit in `len` words.
fn holds_rows(len: usize, w: usize, n: usize) -> bool
    ensures { result ≡ leb (n * (2 * w)) len }
{
    w == 0 || n <= rows_of(len, w)
}

// Writes the `term` lines of a sheet to the rows of a table: the factors of term line i set their bits in the words of row i, which are
// its word if they were zero, and its weight is the row's number. If one of the buffers cannot hold all lines, nothing changes.
pub fn load_lines(sheet: Sheet<'_>, table: &mut Rows<'_>)
    ensures { OnRows (LinesLoaded table.old.w sheet.entry.head (parts newline sheet.entry.text.now)) table.old table.new }
{
    let n = sheet.head.terms;
    if n <= table.coeffs.len() && holds_rows(table.words.len(), table.w, n) {
        fill_lines(sheet.text, n, table);
    }
}
