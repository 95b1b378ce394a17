// The whole input, in a buffer.
ghost use Rattle.std.specs.Prelude.{◌≡◌, ◌<◌, length, take};
ghost use Rattle.input.specs.Pieces.{Held, Took, HoldsFront};

use std::io;
use std::io::Read;

// One read into the buffer from a place on, of at most 4,096 bytes, so that an input from a file comes in pieces too. The bytes before the place stay.
fn read_at<R: Read>(reader: &mut R, buf: &mut [u8], at: usize) -> io::Result<usize>
    requires { at < length buf.old }
    ensures kept { take at buf.new ≡ take at buf.old }
    ensures bytes { Took (R.remaining reader.old) (R.remaining reader.new) result at buf.new }
{
    let end = at + (buf.len() - at).min(4096);
    reader.read(&mut buf[at..end])
}

// Reads piece after piece, until the input ends or the buffer is full, and answers how many bytes of the buffer hold the input.
#[tactic(auto, using(crate::proofs::PieceLaws::ended_here))]
pub fn read_input<R: Read>(reader: &mut R, buf: &mut [u8]) -> io::Result<usize>
    ensures held { Held buf.new result }
    ensures bytes { HoldsFront (R.remaining reader.old) (R.remaining reader.new) buf.new result }
{
    // A buffer of no bytes is handed to the reader too, since a read may fail.
    if buf.is_empty() {
        return reader.read(buf);
    }
    // A `while`: a read says how far it goes, so that the places where reads start are not known before.
    let mut at = 0;
    while at < buf.len() {
        let n = read_at(reader, buf, at)?;
        if n == 0 {
            return Ok(at);
        }
        at += n;
    }
    Ok(at)
}
