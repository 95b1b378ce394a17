// Question 1: the first line that is not laid out as it should be.
ghost use Rattle.std.specs.Prelude.{◌≡◌, cond, length};
ghost use Rattle.text.specs.Bytes.{parts, newline};
ghost use Rattle.layout.specs.Layout.{is_laid_out, is_end, bad_line};

use crate::Kind;
use crate::kinds::line_kind;
use lines::fields::{read_count, read_real_field, read_run};
use lines::oplines::is_op_line;
use lines::termlines::is_term_line;

// Whether a line is what its kind asks.
#[tactic(auto, unfolding(crate::specs::Layout::is_laid_out))]
fn is_laid_out(c: Kind, l: &[u8]) -> bool
    ensures { result ≡ is_laid_out c l.now }
{
    match c {
        Kind::AQubits => read_count(l, b"qubits=").is_some(),
        Kind::ARun => read_run(l).is_some(),
        Kind::AnEpsilon => read_real_field(l, b"epsilon=").is_some(),
        Kind::AMaxTerms => read_count(l, b"max_terms=").is_some(),
        Kind::ALimit => read_count(l, b"limit=").is_some(),
        Kind::ATerms => read_count(l, b"terms=").is_some(),
        Kind::ATerm => is_term_line(l),
        Kind::AnOps => read_count(l, b"ops=").is_some(),
        Kind::AnOp => is_op_line(l),
        Kind::Beyond => false,
    }
}

// Whether a part is as it should be: a line, or the text after the last byte 10. A sheet may end there if no line is missing and nothing
// stands there.
fn is_right(c: Kind, l: &[u8], last: bool) -> bool
    ensures { result ≡ cond last (is_end c l.now) (is_laid_out c l.now) }
{
    if last {
        c == Kind::Beyond && l.is_empty()
    } else {
        is_laid_out(c, l)
    }
}

// The number of the first line that is not what it should be, counted from 1. A line that is missing counts.
pub fn first_bad_line(s: &[u8], terms: usize, ops: usize) -> Option<usize>
    ensures { result ≡ bad_line terms ops (parts newline s.now) 1 }
{
    // How many bytes there are from a part on: a part that has them all is the last. No byte past the line at which this stops is read.
    let mut rest = s.len();
    for (i, l) in s.split(|b| *b == b'\n').enumerate() {
        let k = i + 1;
        if !is_right(line_kind(terms, ops, k), l, l.len() == rest) {
            return Some(k);
        }
        rest = rest.saturating_sub(l.len() + 1);
    }
    None
}
