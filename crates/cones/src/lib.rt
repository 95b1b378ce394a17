#![tactic(auto)]

// Runs under the marks of a light cone beside those under all marks: statements and proofs alone.
