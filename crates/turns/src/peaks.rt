// Counts of terms and the peak.
ghost use Rattle.std.specs.Prelude.{◌≡◌, max};

use crate::Tally;

// The larger of two counts. The specification names the form of this function and the next: a thin one that borrows the tally calls one on plain numbers.
pub fn larger(a: usize, b: usize) -> usize
    ensures { result ≡ max a b }
{
    a.max(b)
}

// Takes a count of terms into the peak. All else stays.
pub fn note_count(tally: &mut Tally, n: usize)
    ensures { (tally.new.peak ≡ max tally.old.peak n) × ((tally.new.discarded ≡ tally.old.discarded) × (tally.new.touched ≡ tally.old.touched)) }
{
    tally.peak = larger(tally.peak, n);
}
