// A stream of sheets: for each a line `#sheet N`, and then its N bytes.
use crate::rowtext::write_rows;
use layout::heads::read_head;
use lines::fields::read_count;
use replies::{Page, Reply};
use rows::Rows;
use sheet::answer::answer;
use text::parts::{part_after, part_before, part_from, part_to};
use words::rows::width;

// The reply to a sheet that is longer than the longest: status 1 at line 0. The function of sheet that makes it, `refusal`, is not public, and
// these nine fields are as short as a public function for one caller.
fn too_long() -> Reply {
    Reply {
        status: 1,
        line: 0,
        mean: 0.0,
        shown: 0,
        t_count: 0,
        peak_terms: 0,
        touched: 0,
        discarded: 0.0,
        means: 0,
    }
}

// Writes the printed lines of a sheet and the rows that are left.
fn write_answer(page: &mut Page<'_>, s: &[u8]) {
    let mut words = [0u64; 4096];
    let mut coeffs = [0.0f64; 512];
    let mut lookup = [0u32; 1537];
    let mut means = [0.0f64; 256];
    let reply = answer(s, &mut words, &mut coeffs, &mut lookup, &mut means);
    page.write_reply(reply, &means);
    let rows = Rows {
        words: &mut words,
        coeffs: &mut coeffs,
        w: width(read_head(s).qubits),
    };
    write_rows(page, &rows);
}

// Writes what is printed for a sheet: its number in the stream, its printed lines and the rows that are left. A sheet has at most 65,536
// bytes; one that is too long leaves no rows.
fn write_one(s: &[u8], index: usize, out: &mut [u8]) -> usize {
    let mut page = Page { out, at: 0 };
    page.write_count(b"#sheet ", index);
    if 65536 < s.len() {
        page.write_reply(too_long(), &[0.0]);
    } else {
        write_answer(&mut page, s);
    }
    page.at
}

// Answers one sheet on standard output. In 512 rows a run leaves at most 256 terms, each on a line of at most 174 bytes.
fn answer_one<R: Print>(rt: &R, s: &[u8], index: usize) -> bool {
    let mut out = [0u8; 65536];
    let n = write_one(s, index, &mut out);
    rt.write_all(part_to(&out, n)).is_ok()
}

// Answers the sheets of a stream, one after another, until it ends, is no such stream, or has less of a sheet than its line tells.
pub(crate) fn answer_all<R: Print>(rt: &R, s: &[u8]) {
    let mut rest = s;
    // Each sheet takes its line from the stream, so that there are at most as many sheets as bytes.
    for index in 0..s.len() {
        let Some(n) = read_count(part_before(rest, b'\n'), b"#sheet ") else {
            return;
        };
        let body = part_after(rest, b'\n');
        if body.len() < n || !answer_one(rt, part_to(body, n), index) {
            return;
        }
        rest = part_from(body, n);
    }
}
