// Program `replay`: answers a stream of sheets and prints, for each, its number in the stream, the printed lines and the rows that the run left.
// A stream and what is printed for it stand beside this program, so that the answers of the Rust can be compared without the Rust.
#![tactic(auto)]

mod rowtext; // rowtext.rt: the rows as text
mod stream; // stream.rt: the sheets of a stream

use input::reading::read_input;
use text::parts::part_to;

// Reads a stream into the buffer and answers its sheets, as far as they stand whole in the buffer. Where a read fails there is no answer.
fn replay_input<R: Input + Print>(rt: &R, buf: &mut [u8; 2097152]) {
    if let Ok(n) = read_input(&mut rt.reader(), buf) {
        stream::answer_all(rt, part_to(buf, n));
    }
}

fn main(rt: HostRuntime) {
    let mut buf = [0u8; 2097152];
    replay_input(&rt, &mut buf);
}
