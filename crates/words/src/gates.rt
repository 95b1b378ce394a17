// One key through one gate: a gate U takes the word P = X^x Z^z backward to U† P U. A key is w x-words and then w z-words.
// The gates stand in the order of section III of Aaronson and Gottesman, "Improved simulation of stabilizer circuits": controlled-NOT, Hadamard, phase;
// the other gates after (2026-05). `.ci/order` keeps this order, here and in the definitions.
// A bit is a number, 0 or 1, and a flip is a mask made of it: on a bool the compiler makes branches, which the processor would often
// predict wrongly. Each gate touches just the bits that it needs. A gate and its targets are three parameters, as `Op::Native` has them.
ghost use Rattle.std.specs.Prelude.{◌≡◌, Bool, cond, ◌+◌, ◌*◌, ◌%◌};
ghost use Rattle.words.specs.Keys.{◌⊕◌, bit_of, bit_at, z_at};
ghost use Rattle.words.specs.Gates.{has_two_targets, conj_phase, has_phase, bits_at, flip_when, conj_key};

use crate::Gate;
use crate::keys::{bit_of, flip_when};

// Bit i of the word that has it: 0 or 1.
#[tactic(auto, using(crate::proofs::BitNumbers::digit), unfolding(crate::specs::Keys::bit_of))]
pub fn word_bit(word: u64, i: usize) -> u64
    ensures { result ≡ cond (bit_of word (i % 64)) 1 0 }
{
    (word >> (i % 64)) % 2
}

// cx: z of the control gains z of the target, x of the target gains x of the control.
fn propagate_cx(key: &mut [u64], w: usize, a: usize, b: usize)
    ensures { let k = key.old in key.new ≡ flip_when (bit_at k a) b (flip_when (bit_at k (z_at w b)) (z_at w a) k) }
{
    let xa = bit_of(key, 0, a);
    let zb = bit_of(key, w, b);
    flip_when(key, zb, w, a);
    flip_when(key, xa, 0, b);
}

// h: x and z exchanged.
fn propagate_h(key: &mut [u64], w: usize, a: usize)
    ensures { let k = key.old in let d = bit_at k a ⊕ bit_at k (z_at w a) in key.new ≡ flip_when d (z_at w a) (flip_when d a k) }
{
    let x = bit_of(key, 0, a);
    let z = bit_of(key, w, a);
    let d = x ^ z;
    flip_when(key, d, 0, a);
    flip_when(key, d, w, a);
}

// s and sdg: z gains x.
fn propagate_s(key: &mut [u64], w: usize, a: usize)
    ensures { let k = key.old in key.new ≡ flip_when (bit_at k a) (z_at w a) k }
{
    let x = bit_of(key, 0, a);
    flip_when(key, x, w, a);
}

// sx and sxdg: x gains z.
fn propagate_sx(key: &mut [u64], w: usize, a: usize)
    ensures { let k = key.old in key.new ≡ flip_when (bit_at k (z_at w a)) a k }
{
    let z = bit_of(key, w, a);
    flip_when(key, z, 0, a);
}

// cz: z of each target gains x of the other.
fn propagate_cz(key: &mut [u64], w: usize, a: usize, b: usize)
    ensures { let k = key.old in key.new ≡ flip_when (bit_at k a) (z_at w b) (flip_when (bit_at k b) (z_at w a) k) }
{
    let xa = bit_of(key, 0, a);
    let xb = bit_of(key, 0, b);
    flip_when(key, xb, w, a);
    flip_when(key, xa, w, b);
}

// swap: the two targets exchanged.
fn propagate_swap(key: &mut [u64], w: usize, a: usize, b: usize)
    ensures { let k = key.old in let dx = bit_at k a ⊕ bit_at k b in let dz = bit_at k (z_at w a) ⊕ bit_at k (z_at w b) in
        key.new ≡ flip_when dz (z_at w b) (flip_when dx b (flip_when dz (z_at w a) (flip_when dx a k))) }
{
    let xa = bit_of(key, 0, a);
    let za = bit_of(key, w, a);
    let xb = bit_of(key, 0, b);
    let zb = bit_of(key, w, b);
    let dx = xa ^ xb;
    let dz = za ^ zb;
    flip_when(key, dx, 0, a);
    flip_when(key, dz, w, a);
    flip_when(key, dx, 0, b);
    flip_when(key, dz, w, b);
}

// Takes a key backward through a gate.
#[tactic(auto, using(crate::proofs::GateLaws::conj_key_flipped))]
pub fn propagate_backward_words(key: &mut [u64], w: usize, gate: Gate, a: usize, b: usize)
    ensures { key.new ≡ conj_key gate w a b key.old }
{
    match gate {
        Gate::Cx => propagate_cx(key, w, a, b),
        Gate::H => propagate_h(key, w, a),
        Gate::S | Gate::Sdg => propagate_s(key, w, a),
        Gate::Sx | Gate::Sxdg => propagate_sx(key, w, a),
        Gate::Cz => propagate_cz(key, w, a, b),
        Gate::Swap => propagate_swap(key, w, a, b),
        Gate::Id | Gate::X | Gate::Y | Gate::Z => {}
    }
}

// k quarter turns where `on` is 1, none where it is 0. The remainder keeps the product within a byte.
fn turns_when(on: u64, k: u8) -> u8
    ensures { (p : Bool) → on ≡ cond p 1 0 → result ≡ cond p k 0 }
{
    k * ((on % 2) as u8)
}

// The factor that a key gains by the gate, from its bits before: 1, i, -1, -i as 0, 1, 2, 3 quarter turns.
pub fn clifford_conjugation_phase(key: &[u64], w: usize, gate: Gate, a: usize, b: usize) -> u8
    ensures { result ≡ conj_phase gate (bits_at w a b key.now) }
{
    match gate {
        Gate::Cx => 0,
        Gate::H => turns_when(bit_of(key, 0, a) & bit_of(key, w, a), 2),
        Gate::S => turns_when(bit_of(key, 0, a), 3),
        Gate::Sdg => turns_when(bit_of(key, 0, a), 1),
        Gate::Sx => turns_when(bit_of(key, w, a), 1),
        Gate::Sxdg => turns_when(bit_of(key, w, a), 3),
        Gate::Cz => turns_when(bit_of(key, 0, a) & bit_of(key, 0, b), 2),
        Gate::Swap | Gate::Id => 0,
        Gate::X => turns_when(bit_of(key, w, a), 2),
        Gate::Y => turns_when(bit_of(key, 0, a) ^ bit_of(key, w, a), 2),
        Gate::Z => turns_when(bit_of(key, 0, a), 2),
    }
}

// Whether a key can gain a factor by the gate: not by controlled-NOT, swap and the identity.
pub fn has_phase(gate: Gate) -> bool
    ensures { result ≡ has_phase gate }
{
    !matches!(gate, Gate::Cx | Gate::Swap | Gate::Id)
}

// The two at once: the factor is taken from the key as it was. Inlined, so that a loop over rows through one gate has no choice among gates.
#[inline(always)]
pub fn conjugate_key(key: &mut [u64], w: usize, gate: Gate, a: usize, b: usize) -> u8
    ensures { (key.new ≡ conj_key gate w a b key.old) × (result ≡ conj_phase gate (bits_at w a b key.old)) }
{
    let quarters = clifford_conjugation_phase(key, w, gate, a, b);
    propagate_backward_words(key, w, gate, a, b);
    quarters
}

// Whether a gate has two targets.
pub fn has_two_targets(gate: Gate) -> bool
    ensures { result ≡ has_two_targets gate }
{
    matches!(gate, Gate::Cx | Gate::Cz | Gate::Swap)
}
