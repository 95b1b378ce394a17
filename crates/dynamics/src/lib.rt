#![tactic(auto)]

// What an op does to a sum, one turn, a run, and all runs of a sheet: definitions and laws alone.
