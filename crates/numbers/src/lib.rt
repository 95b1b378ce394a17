// What is done to one f64, and nothing else. Each public function takes every input and equals its definition in specs/.
#![tactic(auto)]

pub mod tests; // tests.rt: finite, in a range, the absolute value
pub mod bits; // bits.rt: a number and its 64 bits
pub mod root; // root.rt: the square root
pub mod shown; // shown.rt: the mean in whole thousandths
pub mod pairs; // pairs.rt: pairs that are an angle, rates that sum to at most 1
pub mod signs; // signs.rt: a number kept or negated
