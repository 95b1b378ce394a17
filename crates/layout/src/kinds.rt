// Which line stands at a number.
ghost use Rattle.std.specs.Prelude.{◌≡◌};
ghost use Rattle.layout.specs.Layout.{head_kind, later_kind, kind};

use crate::Kind;

// Which line stands at a number from 1 to 6.
fn head_kind(k: usize) -> Kind
    ensures { result ≡ head_kind k }
{
    match k {
        1 => Kind::AQubits,
        2 => Kind::ARun,
        3 => Kind::AnEpsilon,
        4 => Kind::AMaxTerms,
        5 => Kind::ALimit,
        _ => Kind::ATerms,
    }
}

// Which line stands i lines after those, where there are t `term` lines and o `op` lines.
fn later_kind(t: usize, o: usize, i: usize) -> Kind
    ensures { result ≡ later_kind t o i }
{
    if i < t {
        Kind::ATerm
    } else if i == t {
        Kind::AnOps
    } else if i - t - 1 < o {
        Kind::AnOp
    } else {
        Kind::Beyond
    }
}

// Which line stands at number k, counted from 1.
pub fn line_kind(t: usize, o: usize, k: usize) -> Kind
    ensures { result ≡ kind t o k }
{
    if k < 7 {
        head_kind(k)
    } else {
        later_kind(t, o, k - 7)
    }
}
