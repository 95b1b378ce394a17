// Whether the words of a row have an op's targets.
ghost use Rattle.std.specs.Prelude.{◌≡◌, [], ◌∷◌};
ghost use Rattle.ops.specs.Ops.{on_words};
ghost use Rattle.ops.specs.Sets.{list_of};

use crate::marks::Targets;

// One target.
#[tactic(auto, using(crate::proofs::TargetLaws::qubit_on))]
pub fn has_qubit(w: usize, q: usize) -> bool
    ensures { result ≡ on_words w (q ∷ []) }
{
    q / 64 < w
}

// Two targets, distinct.
#[tactic(auto, using(crate::proofs::TargetLaws::pair_yes, crate::proofs::TargetLaws::pair_second, crate::proofs::TargetLaws::pair_first))]
pub fn has_pair(w: usize, a: usize, b: usize) -> bool
    ensures { result ≡ on_words w (a ∷ b ∷ []) }
{
    has_qubit(w, a) && has_qubit(w, b) && a != b
}

// The targets of an op.
#[tactic(auto, unfolding(crate::specs::Ops::on_words))]
pub fn has_targets(w: usize, targets: Targets) -> bool
    ensures { result ≡ on_words w (list_of targets) }
{
    match targets {
        Targets::Nothing => true,
        Targets::One(a) => has_qubit(w, a),
        Targets::Two(a, b) => has_pair(w, a, b),
    }
}
