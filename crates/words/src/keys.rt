// The bits of keys. A key is W x-words and then W z-words. It is a part of lent memory, a slice, so its width is a parameter of what reads it, and a bit goes by
// the word from which it is counted.
ghost use Rattle.std.specs.Prelude.{◌≡◌, Bool, cond, ◌+◌, ◌*◌, ◌/◌, ◌<◌, ◌≤◌, MatchOption};
ghost use Rattle.words.specs.Keys.{bit_at, flip_at, set_at};
ghost use Rattle.words.specs.Gates.{flip_when};

use crate::gates::word_bit;

// Which of n words has bit i, counted from the word `base`; None past the end.
fn word_with(n: usize, base: usize, i: usize) -> Option<usize>
    ensures { MatchOption result (n ≤ base + i / 64) (λ at. (at ≡ base + i / 64) × (at < n)) }
{
    base.checked_add(i / 64).filter(|at| *at < n)
}

// Bit i, counted from the word `base`, as a number: 0 past the end.
#[tactic(auto, using(crate::proofs::Place::bit_there, crate::proofs::Place::bit_past))]
pub(crate) fn bit_of(words: &[u64], base: usize, i: usize) -> u64
    ensures { result ≡ cond (bit_at words.now (64 * base + i)) 1 0 }
{
    match word_with(words.len(), base, i) {
        Some(at) => word_bit(words[at], i),
        None => 0,
    }
}

// Flips bit i, counted from the word `base`, where `on` is 1; for 0, and past the end, nothing changes.
#[tactic(auto, using(crate::proofs::Place::flip_there, crate::proofs::Place::flip_past))]
pub(crate) fn flip_when(words: &mut [u64], on: u64, base: usize, i: usize)
    ensures { (p : Bool) → on ≡ cond p 1 0 → words.new ≡ flip_when p (64 * base + i) words.old }
{
    if let Some(at) = word_with(words.len(), base, i) {
        words[at] ^= on << (i % 64);
    }
}

// Bit i, counted from the word `base`; clear past the end.
pub fn get_bit(words: &[u64], base: usize, i: usize) -> bool
    ensures { result ≡ bit_at words.now (64 * base + i) }
{
    bit_of(words, base, i) == 1
}

// Flips bit i, counted from the word `base`; past the end nothing changes.
pub fn flip_bit(words: &mut [u64], base: usize, i: usize)
    ensures { words.new ≡ flip_at words.old (64 * base + i) }
{
    flip_when(words, 1, base, i);
}

// Sets bit i, counted from the word `base`; past the end nothing changes.
pub fn set_bit(words: &mut [u64], base: usize, i: usize)
    ensures { words.new ≡ set_at words.old (64 * base + i) }
{
    if !get_bit(words, base, i) {
        flip_bit(words, base, i);
    }
}
