// A weighted Pauli sum in two lent buffers, the first n rows: gates, truncation, mean.
#![tactic(auto)]

pub mod gates;
mod loops;
pub mod mean;
pub mod truncate;

// What truncation leaves: how many terms, and the sum of the sizes dropped.
#[derive(Clone, Copy)]
pub struct Kept {
    pub count: usize,
    pub dropped: f64,
}
