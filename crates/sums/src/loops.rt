// The rows through a gate. The gate comes from a closure, each of which is a type of its own: where the closure is a constant, the compiler makes for it
// a loop without a choice among gates. With one loop for all of them a run of many rows takes a sixth longer (docs/SPEED.md).
#![tactic(auto, using(crate::proofs::GateRows::midway_start, crate::proofs::GateRows::midway_row, crate::proofs::GateRows::midway_end, crate::proofs::GateRows::through_arm))]

ghost use Rattle.std.specs.Prelude.{◌≤◌};
ghost use Rattle.words.specs.declared.Gate.{Gate};
ghost use Rattle.rows.specs.Rows.{rows_in};
ghost use Rattle.sums.specs.Through.{Through};

use crate::gates::conjugate_row;
use words::Gate;

// Each of the first n rows, through the gate that the closure gives. The slices of the rows are parameters of their own here and below: `conjugate_row` says why.
pub(crate) fn gate_rows<G: FnOnce() -> Gate>(
    words: &mut [u64],
    coeffs: &mut [f64],
    w: usize,
    n: usize,
    constant: G,
    a: usize,
    b: usize,
)
    requires callable { G.IsAlwaysCallable constant }
    requires rows { n ≤ rows_in w words.old coeffs.old }
    ensures { (g : Gate) × G.post constant g × Through g w n a b words.old words.new coeffs.old coeffs.new }
{
    let gate = constant();
    for i in 0..n {
        conjugate_row(words, coeffs, w, i, gate, a, b);
    }
}

// Each of the first n rows, through a gate, by its loop.
pub(crate) fn conjugate_by_gate(
    words: &mut [u64],
    coeffs: &mut [f64],
    w: usize,
    n: usize,
    gate: Gate,
    a: usize,
    b: usize,
)
    requires { n ≤ rows_in w words.old coeffs.old }
    ensures { Through gate w n a b words.old words.new coeffs.old coeffs.new }
{
    match gate {
        Gate::Cx => gate_rows(words, coeffs, w, n, || Gate::Cx, a, b),
        Gate::H => gate_rows(words, coeffs, w, n, || Gate::H, a, b),
        Gate::S => gate_rows(words, coeffs, w, n, || Gate::S, a, b),
        Gate::Sdg => gate_rows(words, coeffs, w, n, || Gate::Sdg, a, b),
        Gate::Sx => gate_rows(words, coeffs, w, n, || Gate::Sx, a, b),
        Gate::Sxdg => gate_rows(words, coeffs, w, n, || Gate::Sxdg, a, b),
        Gate::Cz => gate_rows(words, coeffs, w, n, || Gate::Cz, a, b),
        Gate::Swap => gate_rows(words, coeffs, w, n, || Gate::Swap, a, b),
        Gate::Id => gate_rows(words, coeffs, w, n, || Gate::Id, a, b),
        Gate::X => gate_rows(words, coeffs, w, n, || Gate::X, a, b),
        Gate::Y => gate_rows(words, coeffs, w, n, || Gate::Y, a, b),
        Gate::Z => gate_rows(words, coeffs, w, n, || Gate::Z, a, b),
    }
}
