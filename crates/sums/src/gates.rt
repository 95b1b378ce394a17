// A Clifford gate on every term of a sum with one number to a row: the word is mapped, the number kept or negated.
ghost use Rattle.std.specs.Prelude.{◌≡◌, map, ◌+◌, ◌*◌, ◌%◌, ◌≤◌, ◌<◌, ltb};
ghost use Rattle.words.specs.Gates.{bits_at, conj_key};
ghost use Rattle.terms.specs.Coefficient.{signed, negates};
ghost use Rattle.terms.specs.Term.{odd_y, conjugated};
ghost use Rattle.terms.specs.Met.{gate_targets};
ghost use Rattle.rows.specs.Rows.{term_at, rows_in, met_in, put_key, put_coeff, Stepped};
ghost use Rattle.rows.specs.Lent.{row_terms, OnRows};

use crate::loops::{conjugate_by_gate, gate_rows};
use numbers::signs::negated_if;
use rows::Rows;
use rows::letters::has_targets;
use terms::number::asks_word;
use words::Gate;
use words::gates::{conjugate_key, has_phase, has_two_targets};
use words::letters::y_parity;

// A key backward through a gate. The answer is how many quarter turns its number, as a part of its coefficient, is from the positive: those of the
// gate, and one more if the Y letters were odd in number, where the gate's sign takes their parity.
#[inline(always)]
fn conjugate_turned(key: &mut [u64], w: usize, gate: Gate, a: usize, b: usize) -> usize
    ensures { (key.new ≡ conj_key gate w a b key.old) × (ltb 1 (result % 4) ≡ negates gate (bits_at w a b key.old) (odd_y w key.old)) }
{
    let odd = if asks_word(gate) { y_parity(key, w) } else { 0 };
    let quarters = conjugate_key(key, w, gate, a, b);
    odd % 4 + usize::from(quarters) % 4
}

// A number, negated from two quarter turns on.
fn turned(v: f64, quarters: usize) -> f64
    ensures { result ≡ signed (ltb 1 (quarters % 4)) v }
{
    negated_if(v, quarters % 4 / 2)
}

// Row i backward through a gate. Both buffers hold the row, so its words are taken as a part and its number by its place, with no
// test or division for each row. A gate that never negates a number leaves the numbers unread. The slices of the rows are parameters of their own, as in
// `loops`: through a `Rows` they are read again for each row, and a run of many terms takes a sixth longer. Inlined, as what it calls is, since for some
// gates the compiler would call it for each row.
#[inline(always)]
pub(crate) fn conjugate_row(
    words: &mut [u64],
    coeffs: &mut [f64],
    w: usize,
    i: usize,
    gate: Gate,
    a: usize,
    b: usize,
)
    requires { i < rows_in w words.old coeffs.old }
    ensures { (words.new ≡ put_key (2 * w) words.old i (conjugated w gate a b (term_at (2 * w) words.old coeffs.old i)).key)
        × (coeffs.new ≡ put_coeff coeffs.old i (conjugated w gate a b (term_at (2 * w) words.old coeffs.old i)).coeff) }
{
    let base = i * (2 * w);
    let quarters = conjugate_turned(&mut words[base..base + 2 * w], w, gate, a, b);
    if has_phase(gate) {
        coeffs[i] = turned(coeffs[i], quarters);
    }
}

// Takes each of the first n terms backward through a gate: its word, and its number by the gate's sign. The answer is how many of them
// had a letter on at least one target. Where none had, the gate changes nothing and no row is touched. For targets that the words have, each gate
// has its own loop, from which the compiler leaves out the tests for them.
pub fn conjugate_all_backward_phased(
    rows: &mut Rows<'_>,
    n: usize,
    gate: Gate,
    a: usize,
    b: usize,
) -> usize
    ensures met { result ≡ met_in rows.old.w (gate_targets gate a b) n rows.old.words.now rows.old.coeffs.now }
    ensures terms { OnRows (Stepped rows.old.w n n n (map (conjugated rows.old.w gate a b) (row_terms rows.old n)) n) rows.old rows.new }
{
    let second = has_two_targets(gate).then_some(b);
    let met = rows.met(n, a, second);
    let there = has_targets(rows.w, a, second);
    if met == 0 && there {
        return met;
    }
    if rows.count() < n {
        return met;
    }
    let w = rows.w;
    if there {
        conjugate_by_gate(rows.words, rows.coeffs, w, n, gate, a, b);
    } else {
        gate_rows(rows.words, rows.coeffs, w, n, || gate, a, b);
    }
    met
}
