// The answer to a sheet for programs in other languages: one exported function over a sheet, lent memory and a buffer for the text.
#![tactic(auto)]

ghost use Rattle.qubit_bench.specs.Embedded.{Embedded};

use replies::printed::printed;
use sheet::answer::answer;

// Answers the bytes of a sheet of any length, in lent rows, index and mean places of any lengths, and writes the text of the reply from the start of
// `out` on, as far as `out` reaches. Gives how many bytes were written. The slices are parameters of their own, as C lends them.
#[unsafe(no_mangle)]
pub extern "C" fn qubit_bench_answer(
    sheet: &[u8],
    words: &mut [u64],
    coeffs: &mut [f64],
    index: &mut [u32],
    means: &mut [f64],
    out: &mut [u8],
) -> usize
    ensures { Embedded sheet.now result words.old words.new coeffs.old coeffs.new
        means.old means.new index.old index.new out.old out.new }
{
    let reply = answer(sheet, words, coeffs, index, means);
    printed(reply, means, out)
}
