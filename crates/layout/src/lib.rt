// All lines of a sheet: question 1, and the values that the other questions and the runs take.
#![tactic(auto)]

use ops::Run;

// The values of the lines `qubits` to `terms`, and `ops`.
#[derive(Clone, Copy)]
pub struct Head {
    pub qubits: usize,
    pub run: Run,
    pub epsilon: f64,
    pub max_terms: usize,
    pub limit: usize,
    pub terms: usize,
    pub ops: usize,
}

// A sheet: its text, and the values of its head.
#[derive(Clone, Copy)]
pub struct Sheet<'a> {
    pub text: &'a [u8],
    pub head: Head,
}

// What a line of a sheet should be.
#[derive(Clone, Copy, PartialEq)]
pub enum Kind {
    AQubits,
    ARun,
    AnEpsilon,
    AMaxTerms,
    ALimit,
    ATerms,
    ATerm,
    AnOps,
    AnOp,
    Beyond,
}

pub mod cursor;
pub mod heads;
pub mod kinds;
pub mod laid;
pub mod loads;
