// Pauli words as bits, and one word through one Clifford gate.
#![tactic(auto)]

pub mod gates;
pub mod keys;
pub mod letters;
pub mod rows;

// The native Clifford gates. Cx has its control first.
#[derive(Clone, Copy)]
pub enum Gate {
    Id,
    X,
    Y,
    Z,
    H,
    S,
    Sdg,
    Sx,
    Sxdg,
    Cx,
    Cz,
    Swap,
}

// The x and z bits of a word at the two targets a and b of a gate, of which the contracts speak.
#[derive(Clone, Copy)]
pub struct Bits {
    pub xa: bool,
    pub za: bool,
    pub xb: bool,
    pub zb: bool,
}
