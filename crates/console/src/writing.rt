// A text, written whole.
ghost use Rattle.console.specs.Delivery.{WritesText};

use std::io::{ErrorKind, Write};

// Writes the text. Whether the writer took it whole; if not, it took a front part of it, perhaps none. A write that a signal interrupted is tried again.
pub(crate) fn write_text<W: Write>(to: &mut W, text: &[u8]) -> bool
    ensures { WritesText (W.contents to.old) (W.contents to.new) text.now result }
{
    // A loop of its own: std's `write_all` says nothing of the bytes that were taken before an Err, and the contract needs them.
    let mut at = 0;
    for _ in 0..u64::MAX {
        if at == text.len() {
            return true;
        }
        match to.write(&text[at..]) {
            Ok(0) => return false,
            Ok(n) => at += n,
            Err(e) => {
                if e.kind() != ErrorKind::Interrupted {
                    return false;
                }
            }
        }
    }
    false
}
