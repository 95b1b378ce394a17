#![tactic(auto)]

// `run=wide` beside `run=path`, from the bytes of a sheet to the text that is printed: statements and proofs alone.
