// Question 2: the four counts, and whether the keys have so many lines.
ghost use Rattle.std.specs.Prelude.{◌≡◌, length};
ghost use Rattle.ops.specs.Task.{counts_fit};
ghost use Rattle.ops.specs.LineTable.{has_lines};

use crate::Observable;
use words::rows::rows_of;

// Whether qubits, limit, terms and ops are as many as they may be: all four at once, where a sheet is asked line by line (`questions`).
pub fn counts_fit(qubits: usize, limit: usize, terms: usize, ops: usize) -> bool
    ensures { result ≡ counts_fit qubits limit terms ops }
{
    let some = 1 <= qubits && qubits <= 256 && 1 <= limit && limit <= 1048576;
    some && terms <= 1024 && terms <= limit && ops <= 4096
}

// Whether the keys have a word of 2 * w words for each weight.
pub fn has_lines(w: usize, observable: Observable<'_>) -> bool
    ensures { result ≡ has_lines w observable.entry.keys.now observable.entry.weights.now }
{
    observable.weights.len() <= rows_of(observable.keys.len(), w)
}
