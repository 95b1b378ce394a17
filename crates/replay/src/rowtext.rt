// The rows that a run left, as text: `row=X:Z:RE,IM`, words split by commas, each word and number in 16 hexadecimal digits, zero as +0. A row
// stores one number; its coefficient's parts are read from that and from its word.
use published::complex_of;
use replies::Page;
use rows::Rows;

// Whether a row is zero: its words and its number.
fn is_zero_row(row: &[u64], v: f64) -> bool {
    row.iter().all(|word| *word == 0) && v == 0.0
}

// Writes words, split by commas.
fn write_words(page: &mut Page<'_>, words: &[u64]) {
    for (i, word) in words.iter().enumerate() {
        if 0 < i {
            page.write_byte(b',');
        }
        page.write_hex(*word);
    }
}

// Writes the line of one row, of w words x and then the words z.
fn write_row(page: &mut Page<'_>, row: &[u64], w: usize, v: f64) {
    let (xs, zs) = row.split_at(w.min(row.len()));
    let c = complex_of(row, w, v);
    page.write_text(b"row=");
    write_words(page, xs);
    page.write_byte(b':');
    write_words(page, zs);
    page.write_byte(b':');
    page.write_real(c.re);
    page.write_byte(b',');
    page.write_real(c.im);
    page.write_byte(b'\n');
}

// Writes the rows up to the last that is not zero, of w words x and w words z each. Where w is 0 a row is its number alone.
pub(crate) fn write_rows(page: &mut Page<'_>, rows: &Rows<'_>) {
    let w = rows.w;
    if 4 < w {
        return;
    }
    let words = &*rows.words;
    let coeffs = &*rows.coeffs;
    let size = 2 * w;
    let mut left = 0;
    for (i, (row, v)) in words.chunks(size.max(1)).zip(coeffs).enumerate() {
        if !is_zero_row(&row[..size.min(row.len())], *v) {
            left = i + 1;
        }
    }
    for (row, v) in words.chunks(size.max(1)).zip(coeffs).take(left) {
        write_row(page, &row[..size.min(row.len())], w, *v);
    }
}
