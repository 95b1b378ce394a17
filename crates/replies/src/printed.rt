// The text of a reply.
ghost use Rattle.replies.specs.Written.{Printing, Writes};
ghost use Rattle.replies.specs.Printed.{printed};

use crate::{Page, Reply};

// Writes the text of a reply, whose Z means are the first of `means`, from the start of the buffer on, as far as the
// buffer reaches. Gives how many bytes were written.
pub fn printed(reply: Reply, means: &[f64], out: &mut [u8]) -> usize
    ensures { Printing (printed reply means.now) result out.old out.new }
{
    let mut page = Page { out, at: 0 };
    page.write_reply(reply, means);
    page.at
}

impl Page<'_> {
    // Writes the lines of a reply.
    pub fn write_reply(&mut self, reply: Reply, means: &[f64])
        ensures { Writes self.old (printed reply means.now) self.new }
    {
        self.write_count(b"status=", reply.status as usize);
        self.write_count(b"line=", reply.line);
        self.write_real_field(b"mean=", reply.mean);
        self.write_signed_field(b"shown=", reply.shown);
        self.write_count(b"t_count=", reply.t_count);
        self.write_count(b"peak_terms=", reply.peak_terms);
        self.write_count(b"touched=", reply.touched);
        self.write_real_field(b"discarded=", reply.discarded);
        self.write_means(means, reply.means);
    }
}
