// The values of the lines `qubits` to `terms`, and `ops`.
// The defaults 0 and `full` are the definitions': a head of any text has values, and question 1 refuses a text without them.
ghost use Rattle.std.specs.Prelude.{◌≡◌};
ghost use Rattle.text.specs.Bytes.{bytes, parts, newline};
ghost use Rattle.lines.specs.Fields.{count, real_field, run_field, or_zero, or_zero_real, or_full};
ghost use Rattle.layout.specs.Cursor.{line_at};
ghost use Rattle.layout.specs.Layout.{head_of};

use crate::Head;
use crate::cursor::{line_at, next_at, start_at};
use lines::fields::{read_count, read_real_field, read_run};
use ops::Run;

// The count on the line that starts at a place, or 0.
fn count_on(s: &[u8], at: usize, key: &[u8]) -> usize
    ensures { result ≡ or_zero (count key.now (line_at s.now at)) }
{
    read_count(line_at(s, at), key).unwrap_or(0)
}

// The epsilon on the line that starts at a place, or 0.
fn epsilon_on(s: &[u8], at: usize) -> f64
    ensures { result ≡ or_zero_real (real_field (bytes "epsilon=") (line_at s.now at)) }
{
    read_real_field(line_at(s, at), b"epsilon=").unwrap_or(0.0)
}

// The run on the line that starts at a place, or `full`.
fn run_on(s: &[u8], at: usize) -> Run
    ensures { result ≡ or_full (run_field (line_at s.now at)) }
{
    read_run(line_at(s, at)).unwrap_or(Run::Full)
}

// The values of a sheet's lines `qubits` to `terms`, and `ops`. However large the count of terms is, the line `ops` is looked for in
// the text alone.
pub fn read_head(s: &[u8]) -> Head
    ensures { result ≡ head_of (parts newline s.now) }
{
    let run_at = next_at(s, 0);
    let epsilon_at = next_at(s, run_at);
    let max_terms_at = next_at(s, epsilon_at);
    let limit_at = next_at(s, max_terms_at);
    let terms_at = next_at(s, limit_at);
    let term_at = next_at(s, terms_at);
    let qubits = count_on(s, 0, b"qubits=");
    let run = run_on(s, run_at);
    let epsilon = epsilon_on(s, epsilon_at);
    let max_terms = count_on(s, max_terms_at, b"max_terms=");
    let limit = count_on(s, limit_at, b"limit=");
    let terms = count_on(s, terms_at, b"terms=");
    let ops_at = start_at(s, term_at, terms);
    let ops = count_on(s, ops_at, b"ops=");
    Head {
        qubits,
        run,
        epsilon,
        max_terms,
        limit,
        terms,
        ops,
    }
}
