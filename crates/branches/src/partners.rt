// A rotation's partner of a row: the same word with z flipped at every target.
ghost use Rattle.std.specs.Prelude.{◌≡◌, ◌*◌, ◌<◌};
ghost use Rattle.terms.specs.Rotation.{partner_by};
ghost use Rattle.terms.specs.Term.{term};
ghost use Rattle.rows.specs.Rows.{put_key, Stored};
ghost use Rattle.rows.specs.Lent.{row_key, SameRows, OnRows};
ghost use Rattle.rows.specs.There.{HasKey, HasRow};

use rows::{Rows, row};
use terms::Axis;
use words::keys::flip_bit;

// Flips z at every target of a key.
fn flip_key(key: &mut [u64], w: usize, axis: Axis)
    ensures { key.new ≡ partner_by w axis key.old }
{
    match axis {
        Axis::Z(q) => flip_bit(key, w, q),
        Axis::Zz(a, b) => {
            flip_bit(key, w, a);
            flip_bit(key, w, b);
        }
    }
}

// Turns the key of row i into its partner's.
pub(crate) fn flip_row(rows: &mut Rows<'_>, i: usize, axis: Axis)
    requires { HasKey rows.old i }
    ensures same { SameRows rows.old rows.new }
    ensures key { rows.new.words.now ≡ put_key (2 * rows.old.w) rows.old.words.now i (partner_by rows.old.w axis (row_key rows.old i)) }
    ensures coeffs { rows.new.coeffs.now ≡ rows.old.coeffs.now }
{
    let w = rows.w;
    let base = i * (2 * w);
    flip_key(&mut rows.words[base..base + 2 * w], w, axis);
}

// Row m becomes the partner of row i, with a coefficient.
pub(crate) fn append_partner(rows: &mut Rows<'_>, m: usize, i: usize, axis: Axis, c: f64)
    requires { (i < m) × HasRow rows.old m }
    ensures { OnRows (Stored (2 * rows.old.w) m (term (partner_by rows.old.w axis (row_key rows.old i)) c)) rows.old rows.new }
{
    row::copy_row(rows.words, 2 * rows.w, i, m);
    flip_row(rows, m, axis);
    rows.coeffs[m] = c;
}
