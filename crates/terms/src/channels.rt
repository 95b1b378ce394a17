// What a noise channel does to the letters X, Y and Z, backward: in the operation order of prism-q's `channel_action`.
ghost use Rattle.std.specs.Prelude.{◌≡◌};
ghost use Rattle.terms.specs.Channel.{local, keep_of, pauli_action, depol_action, phase_action, damp_action, thermal_action, depol2_action, action_of};

use crate::{ChannelAction, ChannelKind, NoiseChannel};
use numbers::root::sqrt;
use numbers::tests::at_least_zero;

// Multipliers for X, Y and Z at one target.
fn local_action(x: f64, y: f64, z: f64, z_to_identity: f64) -> ChannelAction
    ensures { result ≡ local x y z z_to_identity }
{
    ChannelAction {
        kind: ChannelKind::Local,
        lambda: [x, y, z],
        z_to_identity,
    }
}

// max(1 - gamma, 0)
fn keep(gamma: f64) -> f64
    ensures { result ≡ keep_of gamma }
{
    at_least_zero(1.0 - gamma)
}

#[tactic(auto, unfolding(crate::specs::Channel::pauli_action))]
fn pauli_action(px: f64, py: f64, pz: f64) -> ChannelAction
    ensures { result ≡ pauli_action px py pz }
{
    let pi = 1.0 - px - py - pz;
    local_action(pi + px - py - pz, pi + py - px - pz, pi + pz - px - py, 0.0)
}

#[tactic(auto, unfolding(crate::specs::Channel::depol_action))]
fn depolarizing_action(p: f64) -> ChannelAction
    ensures { result ≡ depol_action p }
{
    let lambda = 1.0 - 4.0 * p / 3.0;
    local_action(lambda, lambda, lambda, 0.0)
}

#[tactic(auto, unfolding(crate::specs::Channel::phase_action))]
fn phase_action(gamma: f64) -> ChannelAction
    ensures { result ≡ phase_action gamma }
{
    let kept = sqrt(keep(gamma));
    local_action(kept, kept, 1.0, 0.0)
}

#[tactic(auto, unfolding(crate::specs::Channel::damp_action))]
fn damping_action(gamma: f64) -> ChannelAction
    ensures { result ≡ damp_action gamma }
{
    let kept = keep(gamma);
    let root = sqrt(kept);
    local_action(root, root, kept, gamma)
}

#[tactic(auto, unfolding(crate::specs::Channel::thermal_action))]
fn thermal_action(gad: f64, gpd: f64, excited: f64) -> ChannelAction
    ensures { result ≡ thermal_action gad gpd excited }
{
    let kept = keep(gad);
    let dephase = sqrt(keep(gpd));
    let lambda = sqrt(kept) * dephase;
    local_action(lambda, lambda, kept, gad * (1.0 - 2.0 * excited))
}

#[tactic(auto, unfolding(crate::specs::Channel::depol2_action))]
fn depolarizing2_action(p: f64) -> ChannelAction
    ensures { result ≡ depol2_action p }
{
    let lambda = 1.0 - 16.0 * p / 15.0;
    ChannelAction {
        kind: ChannelKind::Depolarizing2q,
        lambda: [lambda, lambda, lambda],
        z_to_identity: 0.0,
    }
}

// The multipliers of a channel, and what of Z goes to the identity.
#[tactic(auto, unfolding(crate::specs::Channel::action_of))]
pub fn channel_action(channel: NoiseChannel) -> ChannelAction
    ensures { result ≡ action_of channel }
{
    match channel {
        NoiseChannel::Pauli(px, py, pz) => pauli_action(px, py, pz),
        NoiseChannel::Depolarizing(p) => depolarizing_action(p),
        NoiseChannel::PhaseDamping(gamma) => phase_action(gamma),
        NoiseChannel::AmplitudeDamping(gamma) => damping_action(gamma),
        NoiseChannel::ThermalRelaxation(gad, gpd, excited) => thermal_action(gad, gpd, excited),
        NoiseChannel::TwoQubitDepolarizing(p) => depolarizing2_action(p),
    }
}
