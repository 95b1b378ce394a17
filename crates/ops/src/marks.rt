// Which ops a run applies: the t count, and the marks of the runs.
ghost use Rattle.std.specs.Prelude.{◌≡◌, ◌*◌, ◌/◌, min, length, set};
ghost use Rattle.ops.specs.Ops.{shape_of, targets, is_rotation, is_barrier, t_count};
ghost use Rattle.ops.specs.Marks.{mark_all, mark_path};
ghost use Rattle.ops.specs.Sets.{overlay, packed, set_marks, letters_in_any, ConeMarked};

use crate::qubits::QubitSet;
use crate::{Observable, Op};
use words::gates::has_two_targets;
use words::rows::rows_of;

// The targets of an op: none, one or two. Three cases, so no Option of a pair.
#[derive(Clone, Copy)]
pub enum Targets {
    Nothing,
    One(usize),
    Two(usize, usize),
}

impl Op {
    fn is_rotation(self) -> bool
        ensures { result ≡ is_rotation (shape_of self).sort }
    {
        matches!(
            self,
            Op::T(_) | Op::Tdg(_) | Op::Rz(_, _, _) | Op::P(_, _, _) | Op::Rzz(_, _, _, _)
        )
    }

    fn is_barrier(self) -> bool
        ensures { result ≡ is_barrier (shape_of self).sort }
    {
        matches!(self, Op::Barrier)
    }
}

// The number of rotations.
#[tactic(auto, using(crate::proofs::MarkLaws::rotations_counted))]
pub fn t_count(ops: &[Op]) -> usize
    ensures { result ≡ t_count ops.now }
{
    ops.iter().filter(|op| op.is_rotation()).count()
}

// Marks every op, as far as the marks go.
pub fn full_marks(ops: &[Op], marks: &mut [bool])
    ensures { marks.new ≡ overlay (mark_all ops.now) marks.old }
{
    let end = ops.len().min(marks.len());
    marks[..end].fill(true);
}

// Marks every op but barriers, as far as the marks go.
#[tactic(auto, using(crate::proofs::MarkLaws::over_none, crate::proofs::MarkLaws::over_more, crate::proofs::MarkLaws::over_all, crate::proofs::MarkLaws::path_long, crate::proofs::MarkLaws::path_at))]
pub fn path_marks(ops: &[Op], marks: &mut [bool])
    ensures { marks.new ≡ overlay (mark_path ops.now) marks.old }
{
    for i in 0..ops.len().min(marks.len()) {
        marks[i] = !ops[i].is_barrier();
    }
}

// The targets of an op: none, one or two.
pub fn targets_of(op: Op) -> Targets
    ensures { result ≡ packed (targets op) }
{
    match op {
        Op::Native(gate, a, b) if has_two_targets(gate) => Targets::Two(a, b),
        Op::Rzz(a, b, _, _) | Op::Depol2(a, b, _) => Targets::Two(a, b),
        Op::T(q)
        | Op::Tdg(q)
        | Op::Rz(q, _, _)
        | Op::P(q, _, _)
        | Op::Pauli(q, _, _, _)
        | Op::Depol(q, _)
        | Op::Damp(q, _)
        | Op::Phase(q, _)
        | Op::Thermal(q, _, _, _)
        | Op::Native(_, q, _) => Targets::One(q),
        Op::Barrier => Targets::Nothing,
    }
}

// Sets mark i, if there is one.
fn put_mark(marks: &mut [bool], i: usize, m: bool)
    ensures { marks.new ≡ set marks.old i m }
{
    if i < marks.len() {
        marks[i] = m;
    }
}

// Marks the ops in the cone that is grown from a set, as far as the marks go: from the last op back, an op is marked if one of its targets
// is in the set, and then its targets join the set.
fn cone_from(ops: &[Op], mut cone: QubitSet, marks: &mut [bool])
    ensures { marks.new ≡ overlay (set_marks cone.members ops.now) marks.old }
{
    for i in (0..ops.len()).rev() {
        let met = cone.grow(targets_of(ops[i]));
        put_mark(marks, i, met);
    }
}

// Marks the ops in the inverse light cone of a word, as far as the marks go. A qubit at or past 256 is in no set.
pub fn inverse_light_cone(ops: &[Op], w: usize, key: &[u64], marks: &mut [bool])
    ensures { ConeMarked w key.now ops.now marks.old marks.new }
{
    cone_from(ops, QubitSet::of_word(w, key), marks);
}

// Marks the ops in the cone grown from the words of all lines, as far as the keys have them.
pub fn wide_marks(ops: &[Op], w: usize, observable: Observable<'_>, marks: &mut [bool])
    ensures { marks.new ≡ overlay (set_marks (letters_in_any w observable.entry.keys.now
        (min (length observable.entry.weights.now) (length observable.entry.keys.now / (2 * w)))) ops.now) marks.old }
{
    let keys = observable.keys;
    let lines = observable.weights.len().min(rows_of(keys.len(), w));
    cone_from(ops, QubitSet::of_lines(w, keys, lines), marks);
}
