// The op on an `op` line.
ghost use Rattle.std.specs.Prelude.{◌≡◌};
ghost use Rattle.lines.specs.OpLines.{targets_in, reals_in, op_from, op_after, op, is_op_line, op_on};

use crate::Name;
use crate::names::{has_two, read_name, real_count};
use ops::Op;
use text::decimals::read_decimal;
use text::parts::{is_text, part_after, part_before, part_from, starts_with};
use text::reals::read_real;
use words::Gate;

// The two targets or the one target that t spells. One target has 0 beside it.
// The 0 is a default that the definition has, so that `op_from` takes one form of targets for every name.
fn read_targets(two: bool, t: &[u8]) -> Option<(usize, usize)>
    ensures { result ≡ targets_in two t.now }
{
    if two {
        let a = read_decimal(part_before(t, b','))?;
        let b = read_decimal(part_after(t, b','))?;
        Some((a, b))
    } else {
        Some((read_decimal(t)?, 0))
    }
}

// The n reals that r spells. Those that are not asked for are 0.
// The zeros are defaults that the definition has, so that `op_from` takes one form of reals for every name.
fn read_reals(n: usize, r: &[u8]) -> Option<(f64, f64, f64)>
    ensures { result ≡ reals_in n r.now }
{
    if n == 0 {
        return Some((0.0, 0.0, 0.0));
    }
    if n == 1 {
        return Some((read_real(r)?, 0.0, 0.0));
    }
    let x = read_real(part_before(r, b','))?;
    let rest = part_after(r, b',');
    if n == 2 {
        return Some((x, read_real(rest)?, 0.0));
    }
    let y = read_real(part_before(rest, b','))?;
    let z = read_real(part_after(rest, b','))?;
    Some((x, y, z))
}

// The op of a name, with its targets and reals.
fn op_from(n: Name, a: usize, b: usize, x: f64, y: f64, z: f64) -> Op
    ensures { result ≡ op_from n a b x y z }
{
    match n {
        Name::OneTarget(g) => Op::Native(g, a, 0),
        Name::TwoTargets(g) => Op::Native(g, a, b),
        Name::T => Op::T(a),
        Name::Tdg => Op::Tdg(a),
        Name::Rz => Op::Rz(a, x, y),
        Name::P => Op::P(a, x, y),
        Name::Rzz => Op::Rzz(a, b, x, y),
        Name::Pauli => Op::Pauli(a, x, y, z),
        Name::Depol => Op::Depol(a, x),
        Name::Damp => Op::Damp(a, x),
        Name::Phase => Op::Phase(a, x),
        Name::Thermal => Op::Thermal(a, x, y, z),
        Name::Depol2 => Op::Depol2(a, b, x),
    }
}

// The op of a name and of v, which is its targets alone, or its targets and its reals.
fn read_after_name(n: Name, v: &[u8]) -> Option<Op>
    ensures { result ≡ op_after n v.now }
{
    let count = real_count(n);
    let targets = if count == 0 { v } else { part_before(v, b':') };
    let (a, b) = read_targets(has_two(n), targets)?;
    let (x, y, z) = read_reals(count, part_after(v, b':'))?;
    Some(op_from(n, a, b, x, y, z))
}

// The op that v spells. A barrier has no target.
pub fn read_op(v: &[u8]) -> Option<Op>
    ensures { result ≡ op v.now }
{
    if is_text(v, b"barrier:") {
        return Some(Op::Barrier);
    }
    let n = read_name(part_before(v, b':'))?;
    read_after_name(n, part_after(v, b':'))
}

// Whether the line is an `op` line with an op on it.
pub fn is_op_line(l: &[u8]) -> bool
    ensures { result ≡ is_op_line l.now }
{
    starts_with(l, b"op=") && read_op(part_from(l, 3)).is_some()
}

// The op on an `op` line, or the gate id on qubit 0.
// The default is the definition's: the lines that this is put to were read as `op` lines before, by question 1.
pub fn op_on(l: &[u8]) -> Op
    ensures { result ≡ op_on l.now }
{
    read_op(part_from(l, 3)).unwrap_or(Op::Native(Gate::Id, 0, 0))
}
