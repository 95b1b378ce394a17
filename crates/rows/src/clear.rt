// Rows set to zero.
ghost use Rattle.rows.specs.Cleared.{Cleared};
ghost use Rattle.rows.specs.Lent.{OnRows};

use crate::Rows;

impl Rows<'_> {
    // Sets the rows from `from` up to `to` to zero; where the buffers do not hold them all whole, nothing changes.
    pub fn clear(&mut self, from: usize, to: usize)
        ensures { OnRows (Cleared self.old.w from to) self.old self.new }
    {
        if to <= from || self.count() < to {
            return;
        }
        let size = 2 * self.w;
        self.words[from * size..to * size].fill(0);
        self.coeffs[from..to].fill(0.0);
    }
}
