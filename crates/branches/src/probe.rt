// What is looked for from a row: read word by word from the row's own key, and compared with the keys of the rows.
ghost use Rattle.std.specs.Prelude.{◌≡◌, ◌<◌};
ghost use Rattle.words.specs.Keys.{same_key};
ghost use Rattle.terms.specs.Rotation.{met_by, on_key};
ghost use Rattle.terms.specs.Branch.{first};
ghost use Rattle.words.specs.Letters.{is_odd};
ghost use Rattle.terms.specs.Term.{odd_y};
ghost use Rattle.rows.specs.Lent.{row_key};
ghost use Rattle.rows.specs.There.{HasKey, HasKeys};
ghost use Rattle.branches.specs.Probe.{sought_by, files, flipped_word, partner_word, sought_word};

use crate::Sought;
use rows::Rows;
use terms::Axis;
use words::keys::get_bit;
use words::letters::y_parity;

// The key of row i, a part of the buffer.
#[tactic(auto, using(crate::proofs::ProbeLaws::part_key))]
pub(crate) fn key<'a>(rows: &'a Rows<'_>, i: usize) -> &'a [u64]
    requires { HasKey rows.now i }
    ensures { result.now ≡ row_key rows.now i }
{
    let base = i * (2 * rows.w);
    &rows.words[base..base + 2 * rows.w]
}

// Whether a rotation meets a key.
#[tactic(auto, using(crate::proofs::ProbeLaws::met_one, crate::proofs::ProbeLaws::met_two))]
pub(crate) fn key_met(key: &[u64], axis: Axis) -> bool
    ensures { result ≡ met_by axis key.now }
{
    match axis {
        Axis::Z(q) => get_bit(key, 0, q),
        Axis::Zz(a, b) => get_bit(key, 0, a) != get_bit(key, 0, b),
    }
}

// 1 where the Y letters of a key are odd in number, else 0. It is a number, as the bits of a gate are: the table keeps it as a bit and a sine is
// chosen by it, and a branch on it would often be predicted wrongly (docs/DECISIONS.md has what branches cost).
#[tactic(auto, using(terms::proofs::YLaws::odd_same))]
pub(crate) fn key_odd(key: &[u64], w: usize) -> usize
    ensures { (is_odd result ≡ odd_y w key.now) × (result < 2) }
{
    y_parity(key, w)
}

// Whether the words have the targets, and two of them are distinct.
#[tactic(auto, using(crate::proofs::ProbeLaws::on_one))]
pub(crate) fn on_key(w: usize, axis: Axis) -> bool
    ensures { result ≡ on_key w axis }
{
    match axis {
        Axis::Z(q) => q / 64 < w,
        Axis::Zz(a, b) => a / 64 < w && b / 64 < w && a != b,
    }
}

// Whether the index has a key.
pub(crate) fn key_files(key: &[u64], w: usize, sought: Sought) -> bool
    ensures { result ≡ files w sought key.now }
{
    match sought {
        Sought::Same | Sought::Partner(_) => true,
        Sought::Identity(q) => !get_bit(key, w, q),
    }
}

// Word k of a key, v, after z of qubit q is flipped.
#[tactic(auto, using(crate::proofs::ProbeLaws::flipped_before, crate::proofs::ProbeLaws::flipped_other, crate::proofs::ProbeLaws::flipped_here))]
fn flipped_word(v: u64, k: usize, w: usize, q: usize) -> u64
    ensures { result ≡ flipped_word w q k v }
{
    if k < w || k - w != q / 64 {
        return v;
    }
    v ^ (1u64 << (q % 64))
}

#[tactic(auto, unfolding(crate::specs::Probe::partner_word))]
fn partner_word(v: u64, k: usize, w: usize, axis: Axis) -> u64
    ensures { result ≡ partner_word w axis k v }
{
    match axis {
        Axis::Z(q) => flipped_word(v, k, w, q),
        Axis::Zz(a, b) => flipped_word(flipped_word(v, k, w, a), k, w, b),
    }
}

// Word k of the key looked for from a row whose word k is v. The x-words are the row's own.
#[tactic(auto, using(crate::proofs::ProbeLaws::sought_before), unfolding(crate::specs::Probe::sought_word))]
pub(crate) fn sought_word(v: u64, k: usize, w: usize, sought: Sought) -> u64
    ensures { result ≡ sought_word w sought k v }
{
    if k < w {
        return v;
    }
    match sought {
        Sought::Same => v,
        Sought::Partner(axis) => partner_word(v, k, w, axis),
        Sought::Identity(q) => flipped_word(v, k, w, q),
    }
}

// Whether the key of row j is that looked for from row i.
#[tactic(auto, using(crate::proofs::ProbeLaws::probe_differs, crate::proofs::ProbeLaws::probe_same))]
pub(crate) fn is_sought(rows: &Rows<'_>, i: usize, j: usize, sought: Sought) -> bool
    requires { HasKey rows.now i × HasKey rows.now j }
    ensures { result ≡ same_key (row_key rows.now j) (sought_by rows.now.w sought (row_key rows.now i)) }
{
    let own = i * (2 * rows.w);
    let other = j * (2 * rows.w);
    for k in 0..2 * rows.w {
        if rows.words[other + k] != sought_word(rows.words[own + k], k, rows.w, sought) {
            return false;
        }
    }
    true
}

// The first row below n that has the key looked for from row i, by a look at each.
pub(crate) fn scan(rows: &Rows<'_>, n: usize, sought: Sought, i: usize) -> Option<usize>
    requires { HasKeys rows.now n × HasKey rows.now i }
    ensures { result ≡ first (λ j. same_key (row_key rows.now j) (sought_by rows.now.w sought (row_key rows.now i))) n }
{
    for j in 0..n {
        if is_sought(rows, i, j, sought) {
            return Some(j);
        }
    }
    None
}
