// How many letters of a word are Y: the parity of that number, and the number modulo 4. The Y letters of 64 qubits are the digits 1 of x & z. A qubit
// that lies past the end has no letter.
ghost use Rattle.std.specs.Prelude.{◌≡◌, ◌%◌, ◌*◌, ◌+◌, ◌-◌, min, length};
ghost use Rattle.words.specs.Letters.{ys_of};

// How many x-words have their z-word.
fn whole_words(key: &[u64], w: usize) -> usize
    ensures { result ≡ min w (length key.now - w) }
{
    key.len().checked_sub(w).map_or(0, |rest| w.min(rest))
}

// The parity of the Y letters: 1 where they are odd in number, else 0. An exclusive or has an odd number of digits 1 where its parts together do.
// The parity is a number, as the bits of a gate are: a branch on a bool would often be predicted wrongly (docs/DECISIONS.md has what
// branches cost).
#[tactic(auto, using(crate::proofs::OnesLaws::parity_start, crate::proofs::OnesLaws::parity_turn, crate::proofs::OnesLaws::ys_whole))]
pub fn y_parity(key: &[u64], w: usize) -> usize
    ensures { result ≡ ys_of w key.now % 2 }
{
    let mut folded = 0u64;
    for j in 0..whole_words(key, w) {
        folded ^= key[j] & key[w + j];
    }
    folded.count_ones() as usize % 2
}

// How often a word's coefficient is turned by i: once for each Y, so a number modulo 4.
#[tactic(auto, using(crate::proofs::OnesLaws::quarters_start, crate::proofs::OnesLaws::quarters_turn, crate::proofs::OnesLaws::ys_whole))]
pub fn y_quarters(key: &[u64], w: usize) -> u8
    ensures { result ≡ ys_of w key.now % 4 }
{
    let mut quarters = 0;
    for j in 0..whole_words(key, w) {
        quarters = (quarters + (key[j] & key[w + j]).count_ones()) % 4;
    }
    quarters as u8
}
