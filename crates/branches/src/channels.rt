// A noise channel on every term.
ghost use Rattle.std.specs.Prelude.{◌≡◌, true, Option, map, ◌+◌, ◌*◌, ◌≤◌, ◌<◌, length};
ghost use Rattle.words.specs.Keys.{flip_at, z_at, has_letter};
ghost use Rattle.terms.specs.Channel.{is_zletter, insert, branch, branches_to, with_branches, scaled_letter, scaled_local, scaled_either, channeled};
ghost use Rattle.terms.specs.Term.{term};
ghost use Rattle.terms.specs.Met.{kind_targets};
ghost use Rattle.branches.specs.Letters.{letter_of, letter_factor};
ghost use Rattle.branches.specs.declared.Sought.TheVariants.{Identity};
ghost use Rattle.branches.specs.Index.{Indexes, Spares, SameIf};
ghost use Rattle.rows.specs.Rows.{met_in, Stored, Holds, Grown};
ghost use Rattle.rows.specs.Lent.{row_key, row_term, row_terms, OnRows};
ghost use Rattle.rows.specs.There.{HasRow, HasRows};

use crate::scaling::scale_rows;
use crate::{Index, Sought, chains, partners, probe};
use rows::letters::has_targets;
use rows::{Rows, Step};
use terms::{Axis, ChannelAction, ChannelKind, number};
use words::keys::get_bit;

// The index of the multiplier of a key's letter, or none for the identity: a place, since the multipliers are in an array.
fn pauli_letter(key: &[u64], w: usize, q: usize) -> Option<usize>
    ensures { result ≡ letter_of w q key.now }
{
    match (get_bit(key, 0, q), get_bit(key, w, q)) {
        (true, false) => Some(0),
        (true, true) => Some(1),
        (false, true) => Some(2),
        (false, false) => None,
    }
}

// The multiplier of a key's letter, or none for the identity.
fn letter_factor(key: &[u64], w: usize, q: usize, lambda: [f64; 3]) -> Option<f64>
    ensures { result ≡ letter_factor w q lambda key.now }
{
    let letter = pauli_letter(key, w, q)?;
    Some(lambda[letter])
}

// Each of the first n rows, times the multiplier of its letter, where it has one. Inlined, so that it has the slices of its caller's rows at hand.
#[inline(always)]
fn scale_letters(rows: &mut Rows<'_>, n: usize, q: usize, lambda: [f64; 3])
    requires { HasRows rows.old n }
    ensures { OnRows (Holds (2 * rows.old.w) n n (map (scaled_letter rows.old.w q lambda) (row_terms rows.old n))) rows.old rows.new }
{
    let w = rows.w;
    scale_rows(rows, n, |key| letter_factor(key, w, q, lambda));
}

// Whether a key has the letter Z.
fn is_z(key: &[u64], w: usize, q: usize) -> bool
    ensures { result ≡ is_zletter w q key.now }
{
    pauli_letter(key, w, q) == Some(2)
}

// Adds d to the row that has row i's word with z flipped at a qubit, or appends that row as row m.
fn insert_identity(
    rows: &mut Rows<'_>,
    index: &mut Option<Index<'_>>,
    m: usize,
    i: usize,
    q: usize,
    d: f64,
) -> usize
    requires { (i < m) × HasRows rows.old (m + 1) × (is_zletter rows.old.w q (row_key rows.old i) ≡ true)
        × Spares (m + 1) index.old × Indexes (Identity q) rows.old m index.old }
    ensures count { (m ≤ result) × (result ≤ m + 1) }
    ensures terms { OnRows (Holds (2 * rows.old.w) result result
        (insert (row_terms rows.old m) (term (flip_at (row_key rows.old i) (z_at rows.old.w q)) d))) rows.old rows.new }
    ensures index { SameIf index.old index.new × Indexes (Identity q) rows.new result index.new }
{
    match chains::find(rows, index, m, Sought::Identity(q), i) {
        Some(j) => {
            rows.coeffs[j] = number::plus(rows.coeffs[j], d);
            m
        }
        None => {
            partners::append_partner(rows, m, i, Axis::Z(q), d);
            chains::push(rows, index, m, Sought::Identity(q));
            m + 1
        }
    }
}

// The identity branch of row i: its coefficient times f, if it has the letter Z.
fn branch_identity(
    rows: &mut Rows<'_>,
    index: &mut Option<Index<'_>>,
    m: usize,
    i: usize,
    q: usize,
    f: f64,
) -> usize
    requires { (i < m) × HasRows rows.old (m + 1) × Spares (m + 1) index.old × Indexes (Identity q) rows.old m index.old }
    ensures count { (m ≤ result) × (result ≤ m + 1) }
    ensures terms { OnRows (Holds (2 * rows.old.w) result result (branch rows.old.w q f (row_terms rows.old m) (row_term rows.old i))) rows.old rows.new }
    ensures index { SameIf index.old index.new × Indexes (Identity q) rows.new result index.new }
{
    let w = rows.w;
    if !is_z(probe::key(rows, i), w, q) {
        return m;
    }
    let d = number::scaled(rows.coeffs[i], f);
    insert_identity(rows, index, m, i, q, d)
}

// Adds the identity branches of the first n rows, from their old coefficients. The answer is the number of terms.
fn add_identity_branches(
    rows: &mut Rows<'_>,
    index: &mut Option<Index<'_>>,
    n: usize,
    q: usize,
    f: f64,
) -> usize
    requires { HasRows rows.old (2 * n) × Spares (2 * n) index.old × Indexes (Identity q) rows.old n index.old }
    ensures count { result ≤ 2 * n }
    ensures terms { OnRows (Holds (2 * rows.old.w) result result (branches_to rows.old.w q f n (row_terms rows.old n))) rows.old rows.new }
    ensures index { SameIf index.old index.new }
{
    let mut m = n;
    for i in 0..n {
        m = branch_identity(rows, index, m, i, q, f);
    }
    m
}

// Whether a key has a letter.
#[tactic(auto, using(crate::proofs::ChannelRows::letter_there))]
fn has_letter(key: &[u64], w: usize, q: usize) -> bool
    ensures { result ≡ has_letter w key.now q }
{
    pauli_letter(key, w, q).is_some()
}

// Row i times f, if it has a letter at one of two qubits. Both are asked: a branch on the first alone would often be predicted wrongly.
fn scale_either(rows: &mut Rows<'_>, i: usize, a: usize, b: usize, f: f64)
    requires { HasRow rows.old i }
    ensures { OnRows (Stored (2 * rows.old.w) i (scaled_either rows.old.w a b f (row_term rows.old i))) rows.old rows.new }
{
    let w = rows.w;
    let key = probe::key(rows, i);
    if has_letter(key, w, a) | has_letter(key, w, b) {
        rows.coeffs[i] = number::scaled(rows.coeffs[i], f);
    }
}

// A loop of its own: through `scale_rows` it is compiled to a branch for each qubit, and 1,000 depol2 on 1,024 terms take 13.8 ms, by this one 11.0.
fn scale_eithers(rows: &mut Rows<'_>, n: usize, a: usize, b: usize, f: f64)
    requires { HasRows rows.old n }
    ensures { OnRows (Holds (2 * rows.old.w) n n (map (scaled_either rows.old.w a b f) (row_terms rows.old n))) rows.old rows.new }
{
    for i in 0..n {
        scale_either(rows, i, a, b, f);
    }
}

// A channel that acts by the letter at one target: the identity branches first, then the multipliers.
fn apply_local(
    rows: &mut Rows<'_>,
    memory: &mut [u32],
    n: usize,
    q: usize,
    lambda: [f64; 3],
    z_to_identity: f64,
) -> usize
    requires { HasRows rows.old (2 * n) }
    ensures { (result ≤ 2 * n) × OnRows (Holds (2 * rows.old.w) result result
        (scaled_local rows.old.w q lambda (with_branches rows.old.w q z_to_identity (row_terms rows.old n)))) rows.old rows.new }
{
    if z_to_identity == 0.0 {
        scale_letters(rows, n, q, lambda);
        return n;
    }
    let mut index = chains::build(rows, memory, n, 2 * n, Sought::Identity(q));
    let m = add_identity_branches(rows, &mut index, n, q, z_to_identity);
    scale_letters(rows, m, q, lambda);
    m
}

// The first n terms through a channel, where there are 2 * n rows. The answer is the number of terms.
fn channel_held(
    rows: &mut Rows<'_>,
    memory: &mut [u32],
    n: usize,
    action: ChannelAction,
    a: usize,
    b: usize,
) -> usize
    ensures { OnRows (Grown rows.old.w n (channeled rows.old.w a b action (row_terms rows.old n)) result) rows.old rows.new }
{
    if rows.count() / 2 < n {
        return n;
    }
    // The rows as a value of this function's own: through the reference the loops would read its slices again for each row.
    let mut lent = Rows {
        words: rows.words,
        coeffs: rows.coeffs,
        w: rows.w,
    };
    match action.kind {
        ChannelKind::Local => apply_local(
            &mut lent,
            memory,
            n,
            a,
            action.lambda,
            action.z_to_identity,
        ),
        ChannelKind::Depolarizing2q => {
            scale_eithers(&mut lent, n, a, b, action.lambda[0]);
            n
        }
    }
}

// Takes each of the first n terms backward through a channel, at a and, for a channel on two targets, b. The answer is the number of
// terms, where there are 2 * n rows, else nothing changes; and how many of the first n had a letter on at least one target. Where none had,
// nothing changes and no row is touched. What the memory of the index then holds is free, but for its length.
pub fn apply_backward_channel(
    rows: &mut Rows<'_>,
    memory: &mut [u32],
    n: usize,
    action: ChannelAction,
    a: usize,
    b: usize,
) -> Step
    ensures met { result.met ≡ met_in rows.old.w (kind_targets action.kind a b) n rows.old.words.now rows.old.coeffs.now }
    ensures terms { OnRows (Grown rows.old.w n (channeled rows.old.w a b action (row_terms rows.old n)) result.count) rows.old rows.new }
    ensures index { length memory.new ≡ length memory.old }
{
    let second = action.kind.acts_on_two().then_some(b);
    let met = rows.met(n, a, second);
    if met == 0 && has_targets(rows.w, a, second) {
        return Step { count: n, met };
    }
    let count = channel_held(rows, memory, n, action, a, b);
    Step { count, met }
}
