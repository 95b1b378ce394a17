// One turn of a run, a run of a sum under any marks with its fold, and the runs of all qubits.
// What a run is given stays apart, as the document has it: circuit, lines, marks and limits. `all` has no lines, and a run from terms in the rows needs no more
// than ops, marks and limits.
#![tactic(auto)]

ghost use Rattle.std.specs.Prelude.{◌≡◌};
ghost use Rattle.numbers.specs.Constants.{zero64};
ghost use Rattle.turns.specs.Told.{tally};

pub mod all;
mod apply;
mod finish;
mod fold;
pub mod peaks;
mod run;
mod starts;
pub mod sum;
mod turn;

// The greatest number of terms so far, the discarded weight, and how many terms the ops met, summed.
#[derive(Clone, Copy)]
pub struct Tally {
    pub peak: usize,
    pub discarded: f64,
    pub touched: usize,
}

impl Tally {
    // The tally of a run with so many terms, before its first op.
    fn begun(peak: usize) -> Tally
        ensures { result ≡ tally peak zero64 0 }
    {
        Tally {
            peak,
            discarded: 0.0,
            touched: 0,
        }
    }
}

// The memory that a caller lends to a run: for the rows their words and numbers, and for the index. A run takes it apart: its rows have the width of its
// circuit, and the index is memory until a step makes one in it. The mean places are no field: `all` alone writes them, and each other run would have to say that
// it does not.
#[derive(Drop)]
pub struct Memory<'a> {
    pub words: &'a mut [u64],
    pub coeffs: &'a mut [f64],
    pub index: &'a mut [u32],
}

// How far a run has come: the number of terms in the rows, and the tally.
#[derive(Clone, Copy)]
pub struct Progress {
    pub count: usize,
    pub tally: Tally,
}

// How a run ends: the mean, the number of terms left and the tally.
#[derive(Clone, Copy)]
pub struct Finished {
    pub mean: f64,
    pub count: usize,
    pub tally: Tally,
}
