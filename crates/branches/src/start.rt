// The terms with which a run starts, from the lines of an observable.
ghost use Rattle.std.specs.Prelude.{◌≡◌, cond, ◌&&◌, [], ◌∷◌, ◌+◌, ◌*◌, ◌/◌, ◌%◌, ◌≤◌, ◌<◌, leb, ltb, length};
ghost use Rattle.std.specs.Float.Ieee.{neg};
ghost use Rattle.words.specs.Keys.{same_key};
ghost use Rattle.terms.specs.Branch.{first};
ghost use Rattle.numbers.specs.Constants.{zero64};
ghost use Rattle.terms.specs.Coefficient.{plus_of};
ghost use Rattle.terms.specs.Start.{term_of, coalesced, merged};
ghost use Rattle.words.specs.Rows.{key_at};
ghost use Rattle.rows.specs.Rows.{coeff_at, put_coeff, Stored, Holds, Stepped};
ghost use Rattle.rows.specs.Lent.{row_key, row_coeff, row_terms, row_count, OnRows};
ghost use Rattle.rows.specs.There.{HasRow, HasRows};
ghost use Rattle.terms.specs.Term.{term};
ghost use Rattle.branches.specs.declared.Sought.TheVariants.{Same};
ghost use Rattle.branches.specs.Index.{Indexes, Spares, SameIf};
ghost use Rattle.branches.specs.Started.{SharedRow, Started, lines_of};

use crate::{Index, Sought, chains};
use numbers::signs::negated_if;
use ops::Observable;
use rows::{Rows, row};
use terms::number;
use words::letters::y_quarters;

// The weight, negated for two or three quarter turns.
fn signed(quarters: u8, weight: f64) -> f64
    ensures { result ≡ cond (ltb 1 (quarters % 4)) (neg weight) weight }
{
    negated_if(weight, usize::from(quarters) % 4 / 2)
}

// A key, word by word: std's copy of a slice calls `memmove`, and the library for C needs no more from outside than `memcpy` and `memset`.
fn copy_key(to: &mut [u64], from: &[u64])
    requires { length to.old ≡ length from.now }
    ensures { to.new ≡ from.now }
{
    for k in 0..from.len() {
        to[k] = from[k];
    }
}

// A row becomes the term of a line, with a weight.
fn start_row(rows: &mut Rows<'_>, row: usize, keys: &[u64], line: usize, weight: f64)
    requires { (row < row_count rows.old) × (line < length keys.now / (2 * rows.old.w)) }
    ensures { OnRows (Stored (2 * rows.old.w) row (term_of rows.old.w (key_at (2 * rows.old.w) keys.now line) weight)) rows.old rows.new }
{
    let size = 2 * rows.w;
    let key = &keys[line * size..line * size + size];
    copy_key(&mut rows.words[row * size..row * size + size], key);
    rows.coeffs[row] = signed(y_quarters(key, rows.w), weight);
}

fn start_rows(rows: &mut Rows<'_>, observable: Observable<'_>)
    requires { (length observable.weights.now ≤ row_count rows.old)
        × (length observable.weights.now ≤ length observable.keys.now / (2 * rows.old.w)) }
    ensures { let n = length observable.entry.weights.now in
        OnRows (Holds (2 * rows.old.w) n n (lines_of rows.old.w observable.entry.keys.now observable.entry.weights.now n)) rows.old rows.new }
{
    for (l, weight) in observable.weights.iter().enumerate() {
        start_row(rows, l, observable.keys, l, *weight);
    }
}

// Row 0 becomes the term of one line, with a weight of its own; the answer is 1. Without a row or without the line nothing changes and
// the answer is 0.
pub fn single_term(rows: &mut Rows<'_>, keys: &[u64], line: usize, weight: f64) -> usize
    ensures { OnRows (Started (leb 1 (row_count rows.old) && ltb line (length keys.now / (2 * rows.old.w)))
        rows.old.w 1 (term_of rows.old.w (key_at (2 * rows.old.w) keys.now line) weight ∷ []) result) rows.old rows.new }
{
    if rows.count() < 1 || words::rows::rows_of(keys.len(), rows.w) <= line {
        return 0;
    }
    start_row(rows, 0, keys, line, weight);
    1
}

// Row i as row m, with its coefficient added to 0.
fn new_row(rows: &mut Rows<'_>, i: usize, m: usize)
    requires { (m ≤ i) × HasRow rows.old i }
    ensures { OnRows (Stored (2 * rows.old.w) m (term (row_key rows.old i) (plus_of zero64 (row_coeff rows.old i)))) rows.old rows.new }
{
    row::copy_row(rows.words, 2 * rows.w, i, m);
    rows.coeffs[m] = number::plus(0.0, rows.coeffs[i]);
}

fn add_row(coeffs: &mut [f64], i: usize, j: usize)
    requires { (i < length coeffs.old) × (j < length coeffs.old) }
    ensures { coeffs.new ≡ put_coeff coeffs.old j (plus_of (coeff_at coeffs.old j) (coeff_at coeffs.old i)) }
{
    coeffs[j] = number::plus(coeffs[j], coeffs[i]);
}

// Row i, added to that of the first m rows that has its key, or as row m, which then goes into the index. The answer is how many rows
// there are then.
fn share_row(rows: &mut Rows<'_>, index: &mut Option<Index<'_>>, i: usize, m: usize) -> usize
    requires { (m ≤ i) × (HasRow rows.old i × (Spares (m + 1) index.old × Indexes Same rows.old m index.old)) }
    ensures terms { OnRows (SharedRow (2 * rows.old.w) i m (first (λ j. same_key (row_key rows.old j) (row_key rows.old i)) m) result) rows.old rows.new }
    ensures index { SameIf index.old index.new × Indexes Same rows.new result index.new }
{
    match chains::find(rows, index, m, Sought::Same, i) {
        Some(j) => {
            add_row(rows.coeffs, i, j);
            m
        }
        None => {
            new_row(rows, i, m);
            chains::push(rows, index, m, Sought::Same);
            m + 1
        }
    }
}

fn share_rows(rows: &mut Rows<'_>, index: &mut Option<Index<'_>>, n: usize) -> usize
    requires { HasRows rows.old n × (Spares n index.old × Indexes Same rows.old 0 index.old) }
    ensures terms { OnRows (Holds (2 * rows.old.w) n result (coalesced (row_terms rows.old n))) rows.old rows.new × (result ≤ n) }
    ensures index { SameIf index.old index.new }
{
    let mut m = 0;
    for i in 0..n {
        m = share_row(rows, index, i, m);
    }
    m
}

// Merges the first n terms: equal words share a row, in order of first appearance, their coefficients added from 0 in order. The rows
// that this frees are set to zero. The answer is how many terms are left. What the memory of the index then holds is free, but for its length.
pub fn coalesce(rows: &mut Rows<'_>, memory: &mut [u32], n: usize) -> usize
    ensures terms { OnRows (Stepped rows.old.w n n n (coalesced (row_terms rows.old n)) result) rows.old rows.new }
    ensures index { length memory.new ≡ length memory.old }
{
    if n == 0 || rows.count() < n {
        return n;
    }
    let mut index = chains::build(rows, memory, 0, n, Sought::Same);
    let count = share_rows(rows, &mut index, n);
    rows.clear(count, n);
    count
}

// The terms of all lines, two or more of them merged; the answer is how many terms there are. Without a row for each line, or
// without the key of a line, nothing changes and the answer is 0. What the memory of the index then holds is free, but for its length.
pub fn weighted_sum(rows: &mut Rows<'_>, memory: &mut [u32], observable: Observable<'_>) -> usize
    ensures terms { let n = length observable.entry.weights.now in
        OnRows (Started (leb n (row_count rows.old) && leb n (length observable.entry.keys.now / (2 * rows.old.w)))
        rows.old.w n (merged (lines_of rows.old.w observable.entry.keys.now observable.entry.weights.now n)) result) rows.old rows.new }
    ensures index { length memory.new ≡ length memory.old }
{
    let lines = observable.weights.len();
    if rows.count() < lines || words::rows::rows_of(observable.keys.len(), rows.w) < lines {
        return 0;
    }
    start_rows(rows, observable);
    if lines < 2 {
        return lines;
    }
    coalesce(rows, memory, lines)
}
