// The way from an input to an output: what the program `bench` does.
//
// For every reader and every writer whose bytes are known, what is written is proved (`run`). That standard input and output are such rests on
// std and the operating system; the gate runs it on several inputs.
#![tactic(auto)]

ghost use Rattle.std.specs.Prelude.{◌≡◌, length};
ghost use Rattle.console.specs.Told.{Says};
ghost use Rattle.console.specs.Delivery.{Fed, Delivers, LeavesInput};

mod writing; // writing.rt: a text, written whole

use input::reading::read_input;
use sheet::screen::bench_text;
use std::io;
use std::io::{Read, Write};
use writing::write_text;

// So many bytes were read, and the text for them has so many bytes.
#[derive(Clone, Copy)]
pub struct Told {
    pub read: usize,
    pub written: usize,
}

// Why an answer was not delivered: the input could not be read, or the output did not take the whole text. `told` says whether the line about it was
// taken whole.
#[derive(Clone, Copy, PartialEq, Eq)]
pub enum Undelivered {
    Unread { told: bool },
    Unwritten { told: bool },
}

// Reads the input into `buf`, which takes one byte more than the longest sheet has, and writes the whole text for it from the start of `text` on.
fn answer_input<R: Read>(reader: &mut R, buf: &mut [u8], text: &mut [u8]) -> io::Result<Told>
    requires { (length buf.old ≡ 65537) × (length text.old ≡ 8192) }
    ensures says { Says buf.new text.new result }
    ensures fed { Fed (R.remaining reader.old) (R.remaining reader.new) buf.new result }
{
    let read = read_input(reader, buf)?;
    let written = bench_text(&buf[..read], text);
    Ok(Told { read, written })
}

// Reads, answers and writes. Where a read fails there is no answer. Where that or a write fails, a line on `errors` says so; where that does not take
// the line either, there is nobody left to tell.
pub fn run<R: Read, W: Write, E: Write>(
    reader: &mut R,
    output: &mut W,
    errors: &mut E,
) -> Result<(), Undelivered>
    ensures delivers { Delivers (R.remaining reader.old) (W.contents output.old) (W.contents output.new)
        (E.contents errors.old) (E.contents errors.new) result }
    ensures input { LeavesInput (R.remaining reader.old) (R.remaining reader.new) result }
{
    let mut buf = [0u8; 65537];
    let mut text = [0u8; 8192];
    let Ok(told) = answer_input(reader, &mut buf, &mut text) else {
        let told = write_text(errors, b"bench: the input could not be read\n");
        return Err(Undelivered::Unread { told });
    };
    if write_text(output, &text[..told.written]) {
        return Ok(());
    }
    let told = write_text(errors, b"bench: the answer could not be written\n");
    Err(Undelivered::Unwritten { told })
}
