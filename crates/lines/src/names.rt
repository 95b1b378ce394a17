// The names of ops.
ghost use Rattle.std.specs.Prelude.{◌≡◌, None};
ghost use Rattle.lines.specs.OpLines.{one_name, other_name, channel_name, name_of, has_two, real_count};

use crate::Name;
use text::parts::is_text;
use words::Gate;

// The native gate with one target that s names.
fn one_name(s: &[u8]) -> Option<Name>
    ensures { result ≡ one_name s.now None }
{
    if is_text(s, b"id") {
        Some(Name::OneTarget(Gate::Id))
    } else if is_text(s, b"x") {
        Some(Name::OneTarget(Gate::X))
    } else if is_text(s, b"y") {
        Some(Name::OneTarget(Gate::Y))
    } else if is_text(s, b"z") {
        Some(Name::OneTarget(Gate::Z))
    } else if is_text(s, b"h") {
        Some(Name::OneTarget(Gate::H))
    } else if is_text(s, b"s") {
        Some(Name::OneTarget(Gate::S))
    } else if is_text(s, b"sdg") {
        Some(Name::OneTarget(Gate::Sdg))
    } else if is_text(s, b"sx") {
        Some(Name::OneTarget(Gate::Sx))
    } else if is_text(s, b"sxdg") {
        Some(Name::OneTarget(Gate::Sxdg))
    } else {
        None
    }
}

// The gate t or tdg, the gate with two targets or the rotation that s names.
fn other_name(s: &[u8]) -> Option<Name>
    ensures { result ≡ other_name s.now None }
{
    if is_text(s, b"t") {
        Some(Name::T)
    } else if is_text(s, b"tdg") {
        Some(Name::Tdg)
    } else if is_text(s, b"cx") {
        Some(Name::TwoTargets(Gate::Cx))
    } else if is_text(s, b"cz") {
        Some(Name::TwoTargets(Gate::Cz))
    } else if is_text(s, b"swap") {
        Some(Name::TwoTargets(Gate::Swap))
    } else if is_text(s, b"rz") {
        Some(Name::Rz)
    } else if is_text(s, b"p") {
        Some(Name::P)
    } else if is_text(s, b"rzz") {
        Some(Name::Rzz)
    } else {
        None
    }
}

// The channel that s names.
fn channel_name(s: &[u8]) -> Option<Name>
    ensures { result ≡ channel_name s.now }
{
    if is_text(s, b"pauli") {
        Some(Name::Pauli)
    } else if is_text(s, b"depol") {
        Some(Name::Depol)
    } else if is_text(s, b"damp") {
        Some(Name::Damp)
    } else if is_text(s, b"phase") {
        Some(Name::Phase)
    } else if is_text(s, b"thermal") {
        Some(Name::Thermal)
    } else if is_text(s, b"depol2") {
        Some(Name::Depol2)
    } else {
        None
    }
}

// The op that s names.
pub fn read_name(s: &[u8]) -> Option<Name>
    ensures { result ≡ name_of s.now }
{
    one_name(s).or(other_name(s)).or(channel_name(s))
}

// Whether the op has two targets.
pub fn has_two(n: Name) -> bool
    ensures { result ≡ has_two n }
{
    matches!(n, Name::TwoTargets(_) | Name::Rzz | Name::Depol2)
}

// How many reals the op has.
pub fn real_count(n: Name) -> usize
    ensures { result ≡ real_count n }
{
    match n {
        Name::OneTarget(_) | Name::TwoTargets(_) | Name::T | Name::Tdg => 0,
        Name::Depol | Name::Damp | Name::Phase | Name::Depol2 => 1,
        Name::Rz | Name::P | Name::Rzz => 2,
        Name::Pauli | Name::Thermal => 3,
    }
}
