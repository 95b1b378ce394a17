// The runs of a sheet's values that make their own marks: full, cone, path and wide; and the t count.
#![tactic(auto)]

pub mod counts;
pub mod observable;
