// The lines `key=value` that hold a count, a real number or the name of a run.
ghost use Rattle.std.specs.Prelude.{◌≡◌};
ghost use Rattle.lines.specs.Fields.{count, real_field, run_field};

use ops::Run;
use text::decimals::read_decimal;
use text::parts::is_text;
use text::reals::read_real;

// The count on a line that starts with the key k.
#[tactic(auto, using(text::proofs::PartLaws::begins_stripped))]
pub fn read_count(l: &[u8], k: &[u8]) -> Option<usize>
    ensures { result ≡ count k.now l.now }
{
    read_decimal(l.strip_prefix(k)?)
}

// The real number on a line that starts with the key k.
#[tactic(auto, using(text::proofs::PartLaws::begins_stripped))]
pub fn read_real_field(l: &[u8], k: &[u8]) -> Option<f64>
    ensures { result ≡ real_field k.now l.now }
{
    read_real(l.strip_prefix(k)?)
}

// The run that the line `run` names.
pub fn read_run(l: &[u8]) -> Option<Run>
    ensures { result ≡ run_field l.now }
{
    if is_text(l, b"run=full") {
        Some(Run::Full)
    } else if is_text(l, b"run=cone") {
        Some(Run::Cone)
    } else if is_text(l, b"run=all") {
        Some(Run::All)
    } else if is_text(l, b"run=path") {
        Some(Run::Path)
    } else if is_text(l, b"run=wide") {
        Some(Run::Wide)
    } else {
        None
    }
}
