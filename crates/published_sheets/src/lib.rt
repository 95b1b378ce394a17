#![tactic(auto)]

// What is proved of the published runs of a sheet's bytes; no code.
