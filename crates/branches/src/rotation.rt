// A Pauli rotation on every term: t, tdg, rz, p and rzz.
ghost use Rattle.std.specs.Prelude.{◌≡◌, Option, not, ◌+◌, ◌*◌, ◌≤◌, ◌<◌, length};
ghost use Rattle.words.specs.Letters.{is_odd};
ghost use Rattle.terms.specs.Rotation.{mixed};
ghost use Rattle.terms.specs.Met.{targets, axis_targets};
ghost use Rattle.rows.specs.Rows.{coeff_at, met_in, put_coeff, Holds};
ghost use Rattle.rows.specs.Lent.{row_terms, OnRows};
ghost use Rattle.rows.specs.There.{HasRows};
ghost use Rattle.branches.specs.Index.{Tables};
ghost use Rattle.branches.specs.Rotated.{Rotated, met_factor, lone_by, row_by, rows_by};

use crate::scaling::scale_rows;
use crate::{Index, Mate, pairs, partners, probe};
use rows::letters::has_targets;
use rows::{Rows, Step};
use terms::{Axis, number};

// A rotation about the Paulis of its targets, with the sine and the cosine of its angle.
#[derive(Clone, Copy)]
pub struct Rotation {
    pub axis: Axis,
    pub sin: f64,
    pub cos: f64,
}

// The cosine, for a key that the rotation meets.
#[tactic(auto, unfolding(crate::specs::Rotated::met_factor))]
fn met_factor(key: &[u64], rotation: Rotation) -> Option<f64>
    ensures { result ≡ met_factor rotation key.now }
{
    probe::key_met(key, rotation.axis).then_some(rotation.cos)
}

// Two rows that are each other's partners, each from the old values; the Y letters of row i are odd in number if `odd` is odd, those of row j if
// it is not.
fn pair_rows(coeffs: &mut [f64], i: usize, j: usize, odd: usize, rotation: Rotation)
    requires { (i < length coeffs.old) × (j < length coeffs.old) }
    ensures { coeffs.new ≡ put_coeff
        (put_coeff coeffs.old i (mixed (is_odd odd) rotation.sin rotation.cos (coeff_at coeffs.old i) (coeff_at coeffs.old j)))
        j (mixed (not (is_odd odd)) rotation.sin rotation.cos (coeff_at coeffs.old j) (coeff_at coeffs.old i)) }
{
    let Rotation { sin, cos, .. } = rotation;
    let a = coeffs[i];
    let b = coeffs[j];
    coeffs[i] = number::plus(number::scaled(a, cos), number::flipped(b, odd % 2 + 1, sin));
    coeffs[j] = number::plus(number::scaled(b, cos), number::flipped(a, odd, sin));
}

// Row i without a partner: rewritten where the cosine is 0, else scaled, with its partner's word appended as row m.
fn lone_row(rows: &mut Rows<'_>, m: usize, i: usize, rotation: Rotation) -> usize
    requires { (i < m) × HasRows rows.old (m + 1) }
    ensures { (m ≤ result) × (result ≤ m + 1)
        × OnRows (Holds (2 * rows.old.w) result result (lone_by rows.old.w rotation i (row_terms rows.old m))) rows.old rows.new }
{
    let w = rows.w;
    let c = rows.coeffs[i];
    let odd = probe::key_odd(probe::key(rows, i), w);
    let turned = number::flipped(c, odd, rotation.sin);
    if rotation.cos == 0.0 {
        partners::flip_row(rows, i, rotation.axis);
        rows.coeffs[i] = turned;
        return m;
    }
    rows.coeffs[i] = number::scaled(c, rotation.cos);
    partners::append_partner(rows, m, i, rotation.axis, turned);
    m + 1
}

fn branch_row(
    rows: &mut Rows<'_>,
    table: &Option<Index<'_>>,
    n: usize,
    m: usize,
    i: usize,
    rotation: Rotation,
) -> usize
    requires { (i < n) × (n ≤ m) × HasRows rows.old (m + 1) × Tables rotation.axis rows.old n i table.now }
    ensures { (m ≤ result) × (result ≤ m + 1)
        × OnRows (Holds (2 * rows.old.w) result result (row_by rows.old.w rotation n i (row_terms rows.old m))) rows.old rows.new }
{
    match pairs::find(rows, table, n, rotation.axis, i) {
        Mate::Done => m,
        Mate::Lone => lone_row(rows, m, i, rotation),
        Mate::Later(j, odd) => {
            pair_rows(rows.coeffs, i, j, odd, rotation);
            m
        }
    }
}

fn branch_rows(
    rows: &mut Rows<'_>,
    table: &Option<Index<'_>>,
    n: usize,
    rotation: Rotation,
) -> usize
    requires { HasRows rows.old (2 * n) × Tables rotation.axis rows.old n 0 table.now }
    ensures { (result ≤ 2 * n)
        × OnRows (Holds (2 * rows.old.w) result result (rows_by rows.old.w rotation n n (row_terms rows.old n))) rows.old rows.new }
{
    let mut m = n;
    for i in 0..n {
        m = branch_row(rows, table, n, m, i, rotation);
    }
    m
}

// The rows through a rotation, where there is room for twice as many. Not inlined: an op that meets nothing returns before it, and stores no rotation.
#[inline(never)]
fn branch(rows: &mut Rows<'_>, memory: &mut [u32], n: usize, rotation: Rotation) -> usize
    ensures { OnRows (Rotated rows.old.w n rotation.axis rotation.sin rotation.cos result) rows.old rows.new }
{
    rows.fits64();
    if rows.count() / 2 < n {
        return n;
    }
    // The rows as a value of this function's own: through the reference the loops would read its slices again for each row.
    let mut lent = Rows {
        words: rows.words,
        coeffs: rows.coeffs,
        w: rows.w,
    };
    if rotation.sin == 0.0 {
        scale_rows(&mut lent, n, |key| met_factor(key, rotation));
        return n;
    }
    let table = pairs::table(&lent, memory, n, rotation.axis);
    branch_rows(&mut lent, &table, n, rotation)
}

// The targets of a rotation: one, and a second where there is one.
fn targets_of(axis: Axis) -> (usize, Option<usize>)
    ensures { targets result.0 result.1 ≡ axis_targets axis }
{
    match axis {
        Axis::Z(q) => (q, None),
        Axis::Zz(a, b) => (a, Some(b)),
    }
}

// A rotation: t, tdg, rz and p about Z at one qubit, rzz about ZZ at two. The answer is the number of terms, where there are 2 * n rows, else nothing
// changes; and how many of the first n had a letter on at least one target. Where none had, nothing changes and no row is touched. What the memory of
// the index then holds is free, but for its length. Inlined, for runs of ops that meet nothing (docs/SPEED.md).
#[inline(always)]
pub fn branch_rotation(
    rows: &mut Rows<'_>,
    memory: &mut [u32],
    n: usize,
    rotation: Rotation,
) -> Step
    ensures met { result.met ≡ met_in rows.old.w (axis_targets rotation.axis) n rows.old.words.now rows.old.coeffs.now }
    ensures terms { OnRows (Rotated rows.old.w n rotation.axis rotation.sin rotation.cos result.count) rows.old rows.new }
    ensures index { length memory.new ≡ length memory.old }
{
    rows.fits64();
    let (a, second) = targets_of(rotation.axis);
    let met = rows.met(n, a, second);
    if met == 0 && has_targets(rows.w, a, second) {
        return Step { count: n, met };
    }
    let count = branch(rows, memory, n, rotation);
    Step { count, met }
}
