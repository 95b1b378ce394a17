// The table of partners of a rotation, made by one pass over the rows. Its memory has the buckets and the links of chains, and then a number
// for each row, which says what is to be done at it: 0 for nothing, where it is not met or its partner is before it; 1 if it has no partner;
// else twice one more than its partner, and the parity of its Y letters. So the words of pairs, and of rows that are not met, are read once.
// A chain has the first row of each pair. The memory of the table is lent by C as numbers, which is why what is to be done at a row is a number
// there; `mate` reads it. n, how many rows the table has, is a parameter, as in every step over rows.
ghost use Rattle.std.specs.Prelude.{◌≡◌, true, ◌+◌, ◌≤◌, ◌<◌, length, get_or};
ghost use Rattle.terms.specs.Rotation.{met_by, on_key};
ghost use Rattle.rows.specs.Lent.{row_key};
ghost use Rattle.rows.specs.There.{HasKeys};
ghost use Rattle.branches.specs.Pairs.{mate_of, code_at, joined, begun, passed, Told, Pairing, Roomy};
ghost use Rattle.branches.specs.Index.{Tables, SameIndex, InMemory};

use crate::{Index, Mate, Sought, probe};
use rows::Rows;
use terms::Axis;

// What the number of row i says.
fn mate(index: &Index<'_>, n: usize, i: usize) -> Mate
    requires { index.now.buckets + n + i < length index.now.memory.now }
    ensures { result ≡ mate_of (code_at index.now.buckets n index.now.memory.now i) }
{
    let code = index.memory[index.buckets + n + i] as usize;
    match code {
        0 => Mate::Done,
        1 => Mate::Lone,
        _ => {
            let rest = code - 2;
            Mate::Later(rest / 2, rest % 2)
        }
    }
}

// Rows j and i become partners, if j has none yet. The pair is done at row j, the earlier. `odd` is the parity of row i, and row j has the other.
fn join(index: &mut Index<'_>, n: usize, i: usize, j: usize, odd: usize) -> bool
    requires { (index.old.buckets + n + i < length index.old.memory.now) × ((index.old.buckets + n + j < length index.old.memory.now)
        × ((i < 2147483646) × (odd < 2))) }
    ensures same { SameIndex index.old index.new }
    ensures joined { result ≡ true → (get_or index.old.memory.now (index.old.buckets + n + j) 0 ≡ 1)
        × (index.new.memory.now ≡ joined (index.old.buckets + n) i j odd index.old.memory.now) }
{
    let from = index.buckets + n;
    if index.memory[from + j] != 1 {
        return false;
    }
    index.memory[from + i] = 0;
    index.memory[from + j] = (2 * (i + 1) + (1 - odd)) as u32;
    true
}

// Row i becomes the first of its pair, in the chain of a bucket.
fn begin(index: &mut Index<'_>, n: usize, i: usize, b: usize)
    requires { (i < n) × ((n < 2147483646) × ((b < index.old.buckets) × (index.old.buckets + n + n ≤ length index.old.memory.now))) }
    ensures same { SameIndex index.old index.new }
    ensures begun { index.new.memory.now ≡ begun n i index.old.buckets b index.old.memory.now }
{
    index.link(i, b);
    index.memory[index.buckets + n + i] = 1;
}

// Nothing is to be done at row i.
fn pass(index: &mut Index<'_>, n: usize, i: usize)
    requires { (i < n) × (index.old.buckets + n + n ≤ length index.old.memory.now) }
    ensures same { SameIndex index.old index.new }
    ensures passed { index.new.memory.now ≡ passed n i index.old.buckets index.old.memory.now }
{
    index.memory[index.buckets + n + i] = 0;
}

// A row that is met: it joins the row of its chain that is its partner, or begins a pair. The answer is false if a row before it has its key.
fn pair_met(rows: &Rows<'_>, index: &mut Index<'_>, n: usize, i: usize, axis: Axis) -> bool
    requires { (i < n) × (HasKeys rows.now n × ((n < 2147483646) × ((on_key rows.now.w axis ≡ true)
        × ((met_by axis (row_key rows.now i) ≡ true) × Pairing axis rows.now.w rows.now.words.now n i index.old.buckets index.old.memory.now)))) }
    ensures same { SameIndex index.old index.new }
    ensures paired { result ≡ true → Pairing axis rows.now.w rows.now.words.now n (i + 1) index.old.buckets index.new.memory.now }
{
    let b = index.bucket_of(rows, i, Sought::Partner(axis));
    if let Some(j) = index.walk(rows, i, Sought::Partner(axis), i, b) {
        let odd = probe::key_odd(probe::key(rows, i), rows.w);
        return join(index, n, i, j, odd);
    }
    if index.walk(rows, i, Sought::Same, i, b).is_some() {
        return false;
    }
    begin(index, n, i, b);
    true
}

fn pair_row(rows: &Rows<'_>, index: &mut Index<'_>, n: usize, i: usize, axis: Axis) -> bool
    requires { (i < n) × (HasKeys rows.now n × ((n < 2147483646) × ((on_key rows.now.w axis ≡ true)
        × Pairing axis rows.now.w rows.now.words.now n i index.old.buckets index.old.memory.now))) }
    ensures same { SameIndex index.old index.new }
    ensures paired { result ≡ true → Pairing axis rows.now.w rows.now.words.now n (i + 1) index.old.buckets index.new.memory.now }
{
    if probe::key_met(probe::key(rows, i), axis) {
        return pair_met(rows, index, n, i, axis);
    }
    pass(index, n, i);
    true
}

// The answer is false if two of the rows that are met have one key.
fn pair_rows(rows: &Rows<'_>, index: &mut Index<'_>, n: usize, axis: Axis) -> bool
    requires { HasKeys rows.now n × ((n < 2147483646) × ((on_key rows.now.w axis ≡ true)
        × Pairing axis rows.now.w rows.now.words.now n 0 index.old.buckets index.old.memory.now)) }
    ensures same { SameIndex index.old index.new }
    ensures paired { result ≡ true → Pairing axis rows.now.w rows.now.words.now n n index.old.buckets index.new.memory.now }
{
    for i in 0..n {
        if !pair_row(rows, index, n, i, axis) {
            return false;
        }
    }
    true
}

// How many buckets a table of so many rows has in so much memory: one more than rows; none if it is too short.
fn buckets_for(long: usize, n: usize) -> Option<usize>
    ensures { Roomy n result long }
{
    if 2000000000 < n || long <= 3 * n {
        return None;
    }
    Some(n + 1)
}

// Makes the table of the first n rows; none if the memory is too short, the words do not have the targets, or two of the rows that are met have one
// key.
pub(crate) fn table<'a>(
    rows: &Rows<'_>,
    memory: &'a mut [u32],
    n: usize,
    axis: Axis,
) -> Option<Index<'a>>
    requires { HasKeys rows.now n }
    ensures memory { InMemory memory.entry result }
    ensures tabled { Tables axis rows.now n 0 result }
{
    let buckets = buckets_for(memory.len(), n)?;
    if !probe::on_key(rows.w, axis) {
        return None;
    }
    memory[..buckets].fill(0);
    let mut index = Index { memory, buckets };
    if pair_rows(rows, &mut index, n, axis) {
        Some(index)
    } else {
        None
    }
}

// What is to be done at row i where there is no table: by a scan.
fn scan_mate(rows: &Rows<'_>, n: usize, axis: Axis, i: usize) -> Mate
    requires { HasKeys rows.now n × (i < n) }
    ensures { Told axis rows.now.w rows.now.words.now n i result }
{
    let key = probe::key(rows, i);
    if !probe::key_met(key, axis) {
        return Mate::Done;
    }
    match probe::scan(rows, n, Sought::Partner(axis), i) {
        None => Mate::Lone,
        Some(j) if j <= i => Mate::Done,
        Some(j) => Mate::Later(j, probe::key_odd(key, rows.w)),
    }
}

// What is to be done at row i, by the table, or by a scan if there is none. A row's partner is the first below n that is one.
pub(crate) fn find(
    rows: &Rows<'_>,
    table: &Option<Index<'_>>,
    n: usize,
    axis: Axis,
    i: usize,
) -> Mate
    requires { HasKeys rows.now n × ((i < n) × Tables axis rows.now n i table.now) }
    ensures { Told axis rows.now.w rows.now.words.now n i result }
{
    match table {
        None => scan_mate(rows, n, axis, i),
        Some(index) => mate(index, n, i),
    }
}
