// The lines of a sheet, by the places where they start. A place is a number beside the text and no cursor of its own: a head keeps eight places of one text.
ghost use Rattle.std.specs.Prelude.{◌≡◌};
ghost use Rattle.layout.specs.Cursor.{line_at, next_at, start_at};

use text::parts::{find, part_before, part_from};

// The line that starts at a place.
pub fn line_at(s: &[u8], at: usize) -> &[u8]
    ensures { result.now ≡ line_at s.now at }
{
    part_before(part_from(s, at), b'\n')
}

// The place where the next line starts, or the end.
pub fn next_at(s: &[u8], at: usize) -> usize
    ensures { result ≡ next_at s.now at }
{
    let rest = part_from(s, at);
    let m = find(rest, b'\n');
    if m < rest.len() { at + m + 1 } else { s.len() }
}

// The place n lines further, or the end: from there on all lines are empty.
pub fn start_at(s: &[u8], at: usize, n: usize) -> usize
    ensures { result ≡ start_at s.now at n }
{
    let mut place = at;
    for _ in 0..n {
        if s.len() == place {
            return place;
        }
        place = next_at(s, place);
    }
    place
}
