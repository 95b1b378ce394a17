// A buffer of keys, 2 * w words to a row, where w words hold one bit for each qubit.
ghost use Rattle.std.specs.Prelude.{◌≡◌, ◌*◌, ◌/◌};
ghost use Rattle.words.specs.Keys.{width_of};

// How many whole rows of 2 * w words a buffer of n words holds; none for w = 0.
#[tactic(auto, using(crate::proofs::RowSteps::few_words, crate::proofs::RowSteps::no_rows))]
pub fn rows_of(n: usize, w: usize) -> usize
    ensures { result ≡ n / (2 * w) }
{
    // It is asked for at each op: by `checked_div` a run of many rows takes 2 % longer.
    if w == 0 || n / 2 < w { 0 } else { n / (2 * w) }
}

// How many words hold one bit for each qubit.
pub fn width(qubits: usize) -> usize
    ensures { result ≡ width_of qubits }
{
    qubits.div_ceil(64)
}
