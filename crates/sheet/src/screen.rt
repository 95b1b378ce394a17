// What the program `bench` prints.
ghost use Rattle.std.specs.Prelude.{[]};
ghost use Rattle.replies.specs.Written.{Printing};
ghost use Rattle.replies.specs.Printed.{printed};
ghost use Rattle.sheet.specs.Answer.{refusal, printed_of};
ghost use Rattle.sheet.specs.Screen.{bench};

use crate::answer::answer;
use crate::replying::refusal;
use ops::Refusal;
use questions::Refused;
use replies::printed::printed;

// The text for an input that is longer than the longest sheet.
fn too_long_text(out: &mut [u8]) -> usize
    ensures { Printing (printed (refusal 1 0) []) result out.old out.new }
{
    let no_means = [0.0f64; 1];
    let long = Refused {
        by: Refusal::Layout,
        line: 0,
    };
    printed(refusal(long), &no_means, out)
}

// The text for a sheet, answered in 512 rows of up to four words x and four words z, and 256 mean places.
fn sheet_text(s: &[u8], out: &mut [u8]) -> usize
    ensures { Printing (printed_of s.now 512 256) result out.old out.new }
{
    let mut words = [0u64; 4096];
    let mut coeffs = [0.0f64; 512];
    let mut index = [0u32; 1537];
    let mut means = [0.0f64; 256];
    let reply = answer(s, &mut words, &mut coeffs, &mut index, &mut means);
    printed(reply, &means, out)
}

// Writes what `bench` prints for the bytes of its input from the start of the buffer on, as far as the buffer reaches. Gives how many bytes were
// written.
pub fn bench_text(s: &[u8], out: &mut [u8]) -> usize
    ensures { Printing (bench s.now) result out.old out.new }
{
    if s.len() > 65536 {
        too_long_text(out)
    } else {
        sheet_text(s, out)
    }
}
