// Ops, circuits and observables, what a run is given and what refuses it, and the marks that say which ops a run applies.
#![tactic(auto)]

ghost use Rattle.std.specs.Prelude.{◌≡◌, true};
ghost use Rattle.ops.specs.Binary.{RealsAreBinary64, all_fit64};
ghost use Rattle.ops.specs.Refusals.{number_of};

pub mod marks;
mod qubits;
pub mod sizes;
pub mod targets;

use words::Gate;

// An op of a sheet. A native gate with one target has 0 for the second: the specification has the gate enum within this one, and the gate
// says whether there is a second. Rotations have their sine and cosine, channels their rates.
#[derive(Clone, Copy)]
pub enum Op {
    Native(Gate, usize, usize),
    T(usize),
    Tdg(usize),
    Rz(usize, f64, f64),
    P(usize, f64, f64),
    Rzz(usize, usize, f64, f64),
    Pauli(usize, f64, f64, f64),
    Depol(usize, f64),
    Damp(usize, f64),
    Phase(usize, f64),
    Thermal(usize, f64, f64, f64),
    Depol2(usize, usize, f64),
    Barrier,
}

// What a run applies: the number of qubits, and the ops in order. Every real of an op is a binary64, as every f64 is; the field says it
// for all ops, since the prover knows it only of an op that is itself a parameter.
#[derive(Clone, Copy)]
pub struct Circuit<'a> {
    pub qubits: usize,
    pub ops: &'a [Op],
    ghost binary64: { all_fit64 ops.now ≡ true },
}

impl<'a> Circuit<'a> {
    pub fn new(qubits: usize, ops: &'a [Op]) -> Circuit<'a>
        ensures qubits { result.qubits ≡ qubits }
        ensures ops { result.ops.now ≡ ops.now }
    {
        for op in ops {
            op.fits64();
        }
        Circuit { qubits, ops }
    }
}

impl Op {
    // The reals of an op are binary64.
    fn fits64(self)
        ensures { RealsAreBinary64 self }
    {
        // The type of a parameter says so.
    }
}

// The lines of a table: line l has the weight l, and the 2 * w words from l * 2 * w on, for a width of w.
#[derive(Clone, Copy)]
pub struct Observable<'a> {
    pub keys: &'a [u64],
    pub weights: &'a [f64],
}

// The sheet's epsilon, max_terms and limit.
#[derive(Clone, Copy)]
pub struct Limits {
    pub epsilon: f64,
    pub max_terms: usize,
    pub limit: usize,
}

// The runs by their names on a sheet.
#[derive(Clone, Copy)]
pub enum Run {
    Full,
    Cone,
    All,
    Path,
    Wide,
}

// Why a sheet or a run is refused: the question that is answered no.
#[derive(Clone, Copy, PartialEq, Eq)]
pub enum Refusal {
    // A line is not laid out as it should be.
    Layout,
    // Qubits, limit, terms or ops are too many or too few.
    Counts,
    // The run has other lines or ops than it takes: the terms of `cone` and `all`, a channel.
    RunLines,
    // A real is out of its range.
    Reals,
    // A qubit is not below the number of qubits.
    Qubits,
    // A qubit stands twice in one term or op.
    Repeats,
    // There are too few rows or mean places.
    Room,
    // A coefficient, a sum or a mean is not finite.
    NotFinite,
    // There are more terms than limit.
    TooMany,
    // A sine and a cosine are no angle, or rates sum to more than 1.
    Angles,
}

impl Refusal {
    // The number of the question.
    pub fn number(self) -> u8
        ensures { result ≡ number_of self }
    {
        match self {
            Refusal::Layout => 1,
            Refusal::Counts => 2,
            Refusal::RunLines => 3,
            Refusal::Reals => 4,
            Refusal::Qubits => 5,
            Refusal::Repeats => 6,
            Refusal::Room => 7,
            Refusal::NotFinite => 8,
            Refusal::TooMany => 9,
            Refusal::Angles => 11,
        }
    }
}
