// One row of the two lent buffers, and how many there are.
ghost use Rattle.std.specs.Prelude.{◌≡◌, ◌*◌, ◌/◌, ◌+◌, min, leb};
ghost use Rattle.words.specs.Keys.{Words};
ghost use Rattle.rows.specs.Rows.{coeff_at, put_coeff, copied_row};
ghost use Rattle.rows.specs.Lent.{row_count};

use crate::Rows;

// How many rows two buffers of these lengths hold whole. Of lengths: sheet asks it of memory that is no rows yet.
pub fn rows_in(words: usize, coeffs: usize, w: usize) -> usize
    ensures { result ≡ min (words / (2 * w)) coeffs }
{
    words::rows::rows_of(words, w).min(coeffs)
}

impl Rows<'_> {
    // How many rows the buffers hold whole.
    pub fn count(&self) -> usize
        ensures { result ≡ row_count self.now }
    {
        rows_in(self.words.len(), self.coeffs.len(), self.w)
    }

    // Every word fits in 64 bits.
    pub fn fits64(&self)
        ensures { Words self.now.words.now }
    {
        fits64(self.words);
    }
}

// Every word fits in 64 bits: the prover knows it of a slice that is itself a parameter.
pub fn fits64(words: &[u64])
    ensures { Words words.now }
{}

// The number of row k; a NaN past the end.
pub fn value_at(coeffs: &[f64], k: usize) -> f64
    ensures { result ≡ coeff_at coeffs.now k }
{
    coeffs.get(k).copied().unwrap_or(f64::NAN)
}

// Another number in row k; past the end nothing changes.
pub fn store_value(coeffs: &mut [f64], k: usize, x: f64)
    ensures { coeffs.new ≡ put_coeff coeffs.old k x }
{
    if k < coeffs.len() {
        coeffs[k] = x;
    }
}

// Whether row i of `size` words lies whole within `len` words. In 128 bits the product fits.
fn holds_row(len: usize, size: usize, i: usize) -> bool
    ensures { result ≡ leb (i * size + size) len }
{
    i as u128 * size as u128 + size as u128 <= len as u128
}

// The key of a row of `size` words, copied to another row; where one of the two is not there whole nothing changes.
#[tactic(auto, using(crate::proofs::RowAccess::copied_from, crate::proofs::RowAccess::copied_to, crate::proofs::RowAccess::copied_at))]
pub fn copy_row(words: &mut [u64], size: usize, from: usize, to: usize)
    ensures { words.new ≡ copied_row size words.old from to }
{
    let len = words.len();
    if holds_row(len, size, from) && holds_row(len, size, to) {
        let start = from * size;
        words.copy_within(start..start + size, to * size);
    }
}
