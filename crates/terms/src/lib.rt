// Terms of a weighted Pauli sum: the one real of a coefficient, the parity of a word, and what a noise channel does to the letters of a word.
#![tactic(auto)]

ghost use Rattle.std.specs.Prelude.{◌≡◌};
ghost use Rattle.terms.specs.Met.{acts_on_two};

pub mod channels;
pub mod number;

// A rotation's targets: rz, p, t and tdg have one, rzz has two.
#[derive(Clone, Copy)]
pub enum Axis {
    Z(usize),
    Zz(usize, usize),
}

// The six noise channels, with their rates.
#[derive(Clone, Copy)]
pub enum NoiseChannel {
    // px, py, pz
    Pauli(f64, f64, f64),
    Depolarizing(f64),
    AmplitudeDamping(f64),
    PhaseDamping(f64),
    // gad, gpd, excited
    ThermalRelaxation(f64, f64, f64),
    TwoQubitDepolarizing(f64),
}

// Whether a channel acts by the letter at one target, or on two targets alike.
#[derive(Clone, Copy)]
pub enum ChannelKind {
    Local,
    Depolarizing2q,
}

impl ChannelKind {
    // Whether a channel of the kind has two targets.
    pub fn acts_on_two(self) -> bool
        ensures { result ≡ acts_on_two self }
    {
        matches!(self, ChannelKind::Depolarizing2q)
    }
}

// A channel's kind, its multipliers for X, Y and Z (for two targets each is the same), and what of Z goes to the identity.
#[derive(Clone, Copy)]
pub struct ChannelAction {
    pub kind: ChannelKind,
    pub lambda: [f64; 3],
    pub z_to_identity: f64,
}
