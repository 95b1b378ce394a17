// Reading an input, as standard input.
#![tactic(auto)]

pub mod reading; // reading.rt: the whole input, in a buffer
