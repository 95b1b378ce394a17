// How many rows have a letter on at least one of the targets of a step.
ghost use Rattle.std.specs.Prelude.{◌≡◌, ℕ, cond, Option, ◌+◌, ◌*◌, ◌/◌, ◌≤◌, ◌<◌, length};
ghost use Rattle.words.specs.Keys.{has_letter};
ghost use Rattle.terms.specs.Met.{targets, in_words};
ghost use Rattle.rows.specs.Rows.{met_in};
ghost use Rattle.words.specs.Rows.{key_at};

use crate::Rows;
use crate::row::rows_in;
use words::gates::word_bit;

// The sum of the letters of the first n rows. It is a count: m is any that begins at 0 and grows at each row by the row's letter.
fn count_rows<F: Fn(usize) -> u64>(n: usize, letter: F) -> usize
    requires callable { (i : ℕ) → i < n → F.pre letter i }
    requires letters { (i x : ℕ) → i < n → F.post letter i x → x ≤ 1 }
    ensures { (m : ℕ → ℕ) → m 0 ≡ 0 → ((i x : ℕ) → i < n → F.post letter i x → m (i + 1) ≡ m i + x) → result ≡ m n }
{
    let mut count = 0;
    for i in 0..n {
        count += letter(i) as usize;
    }
    count
}

// Whether the words have a and, with a second target, b.
pub fn has_targets(w: usize, a: usize, b: Option<usize>) -> bool
    ensures { result ≡ in_words w (targets a b) }
{
    a / 64 < w && b.is_none_or(|b| b / 64 < w)
}

// 1 if row i has a letter at a qubit that the words have, else 0. A letter is a number, as the bits of a gate are, and its two words are read
// by their places: this is done for every row and every op.
#[tactic(auto, using(crate::proofs::LetterRows::letter_bits))]
fn letter_at(words: &[u64], w: usize, i: usize, q: usize) -> u64
    requires { (i * (2 * w) + 2 * w ≤ length words.now) × (q / 64 < w) }
    ensures { result ≡ cond (has_letter w (key_at (2 * w) words.now i) q) 1 0 }
{
    let at = i * (2 * w) + q / 64;
    let x = word_bit(words[at], q);
    let z = word_bit(words[at + w], q);
    x | z
}

// How many of the first n terms have a letter at a or, with a second target, at b; none where there are not that many rows, or no words for the
// targets. The slices are only read, so they are parameters of their own: a `Rows` is made of exclusive ones. Inlined, for
// runs of ops that meet nothing (docs/SPEED.md).
#[inline(always)]
pub fn met_rows(
    words: &[u64],
    coeffs: &[f64],
    w: usize,
    n: usize,
    a: usize,
    b: Option<usize>,
) -> usize
    ensures { result ≡ met_in w (targets a b) n words.now coeffs.now }
{
    if rows_in(words.len(), coeffs.len(), w) < n || !has_targets(w, a, b) {
        return 0;
    }
    match b {
        None => count_rows(n, |i| letter_at(words, w, i, a)),
        Some(b) => count_rows(n, |i| letter_at(words, w, i, a) | letter_at(words, w, i, b)),
    }
}

impl Rows<'_> {
    // The same of these rows.
    #[inline(always)]
    pub fn met(&self, n: usize, a: usize, b: Option<usize>) -> usize
        ensures { result ≡ met_in self.now.w (targets a b) n self.now.words.now self.now.coeffs.now }
    {
        met_rows(self.words, self.coeffs, self.w, n, a, b)
    }
}
