#![tactic(auto)]

// What each change request moved, beside the definition before it: statements and proofs alone.
