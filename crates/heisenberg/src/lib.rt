#![tactic(auto)]

// The published rules of rotations, tableau rows and expectation values, beside the definitions: statements and proofs alone.
