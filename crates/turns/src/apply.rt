// What each op does to the terms in the rows.
ghost use Rattle.std.specs.Prelude.{◌≡◌, ◌*◌, ◌≤◌, length};
ghost use Rattle.numbers.specs.Constants.{sine_t, cosine_t};
ghost use Rattle.terms.specs.Met.{kind_targets};
ghost use Rattle.terms.specs.Term.{Distinct};
ghost use Rattle.terms.specs.Channel.{action_of};
ghost use Rattle.rows.specs.Rows.{met_in, Grown, Holds};
ghost use Rattle.rows.specs.Lent.{row_terms, row_count, OnRows};
ghost use Rattle.dynamics.specs.Acts.{noisy, act, met};

use branches::channels::apply_backward_channel;
use branches::rotation::{Rotation, branch_rotation};
use ops::Op;
use ops::marks::targets_of;
use ops::targets::has_targets;
use rows::{Rows, Step};
use sums::gates::conjugate_all_backward_phased;
use terms::{Axis, NoiseChannel as Noise};

// A channel, at one target or two.
fn apply_channel(
    rows: &mut Rows<'_>,
    index: &mut [u32],
    n: usize,
    channel: Noise,
    a: usize,
    b: usize,
) -> Step
    ensures met { result.met ≡ met_in rows.old.w (kind_targets (action_of channel).kind a b) n rows.old.words.now rows.old.coeffs.now }
    ensures terms { OnRows (Grown rows.old.w n (noisy rows.old.w a b channel (row_terms rows.old n)) result.count) rows.old rows.new }
{
    let action = terms::channels::channel_action(channel);
    apply_backward_channel(rows, index, n, action, a, b)
}

// t's sine and cosine, by their bits.
fn sine_t() -> f64
    ensures { result ≡ sine_t }
{
    numbers::bits::of_bits(0x3fe6_a09e_667f_3bcc)
}

fn cosine_t() -> f64
    ensures { result ≡ cosine_t }
{
    numbers::bits::of_bits(0x3fe6_a09e_667f_3bcd)
}

// A rotation about Z at a qubit. Its sine and cosine are parameters here, since this makes the rotation of them.
fn about_z(q: usize, sin: f64, cos: f64) -> Rotation
    ensures { result ≡ record { axis = Axis.Z q; sin = sin; cos = cos } }
{
    Rotation {
        axis: Axis::Z(q),
        sin,
        cos,
    }
}

// The first n terms through one op. The answer is the number of terms, and how many the op met.
pub(crate) fn apply_backward(op: Op, rows: &mut Rows<'_>, index: &mut [u32], n: usize) -> Step
    requires { (2 * n ≤ row_count rows.old) × Distinct (row_terms rows.old n) }
    ensures { (result.met ≡ met rows.old.w op (row_terms rows.old n))
        × OnRows (Holds (2 * rows.old.w) (2 * n) result.count (act rows.old.w op (row_terms rows.old n))) rows.old rows.new }
{
    rows.fits64();
    if !has_targets(rows.w, targets_of(op)) {
        return Step { count: n, met: 0 };
    }
    match op {
        Op::Native(g, a, b) => {
            let met = conjugate_all_backward_phased(rows, n, g, a, b);
            Step { count: n, met }
        }
        Op::T(q) => branch_rotation(rows, index, n, about_z(q, sine_t(), cosine_t())),
        Op::Tdg(q) => {
            let rotation = about_z(q, -sine_t(), cosine_t());
            branch_rotation(rows, index, n, rotation)
        }
        Op::Rz(q, s, c) | Op::P(q, s, c) => branch_rotation(rows, index, n, about_z(q, s, c)),
        Op::Rzz(a, b, sin, cos) => {
            let axis = Axis::Zz(a, b);
            branch_rotation(rows, index, n, Rotation { axis, sin, cos })
        }
        Op::Pauli(q, x, y, z) => apply_channel(rows, index, n, Noise::Pauli(x, y, z), q, 0),
        Op::Depol(q, p) => apply_channel(rows, index, n, Noise::Depolarizing(p), q, 0),
        Op::Damp(q, g) => apply_channel(rows, index, n, Noise::AmplitudeDamping(g), q, 0),
        Op::Phase(q, g) => apply_channel(rows, index, n, Noise::PhaseDamping(g), q, 0),
        Op::Thermal(q, d, p, e) => {
            let channel = Noise::ThermalRelaxation(d, p, e);
            apply_channel(rows, index, n, channel, q, 0)
        }
        Op::Depol2(a, b, p) => {
            let channel = Noise::TwoQubitDepolarizing(p);
            apply_channel(rows, index, n, channel, a, b)
        }
        Op::Barrier => Step { count: n, met: 0 },
    }
}
