// One line of a sheet: whether it is laid out as it should be, and the values on it.
#![tactic(auto)]

use words::Gate;

// The name of an op. The native gates go by the number of their targets.
#[derive(Clone, Copy)]
pub enum Name {
    OneTarget(Gate),
    TwoTargets(Gate),
    T,
    Tdg,
    Rz,
    P,
    Rzz,
    Pauli,
    Depol,
    Damp,
    Phase,
    Thermal,
    Depol2,
}

pub mod fields;
pub mod names;
pub mod oplines;
pub mod termlines;
