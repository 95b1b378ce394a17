// The steps over a weighted Pauli sum in two lent buffers that look for rows by their keys, by an index in lent memory: the start of a run,
// rotations and channels.
#![tactic(auto)]

pub mod chains;
pub mod channels;
mod pairs;
mod partners;
mod probe;
pub mod rotation;
mod scaling;
pub mod start;

use terms::Axis;

// What is looked for from a row. It is an enum and no closure: the word looked for, the rows that an index has and the row that a key hashes with go by the same
// case, and an index is promised for a case.
#[derive(Clone, Copy)]
pub(crate) enum Sought {
    // A row with the same key.
    Same,
    // Its partner under a rotation.
    Partner(Axis),
    // The row with z flipped at a qubit.
    Identity(usize),
}

// Chains of rows in lent memory: a number for each bucket, then one for each row; a table of partners has one more for each row (`pairs`). Where the memory is
// too short there is none, and rows are looked for by a scan.
#[derive(Drop)]
pub(crate) struct Index<'a> {
    memory: &'a mut [u32],
    buckets: usize,
}

// What a rotation does at a row.
#[derive(Clone, Copy)]
pub(crate) enum Mate {
    // Nothing: the row is not met, or its partner is before it, and the pair is done there.
    Done,
    // The row is met and has no partner.
    Lone,
    // The partner is a later row; and a number, as `key_odd` gives it, that is odd where the row's own Y letters are odd in number.
    Later(usize, usize),
}
