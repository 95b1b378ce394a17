// Parts of a text, and comparisons of texts. A part is a part of the same memory: nothing is copied.
ghost use Rattle.std.specs.Prelude.{◌≡◌, take, drop};
ghost use Rattle.text.specs.Bytes.{index, before, after, begins, same};

// The index of the first byte c, or the length where there is none.
// The length is the place where the part before c ends, so callers cut there; with an Option each would write the same default.
pub fn find(s: &[u8], c: u8) -> usize
    ensures { result ≡ index c s.now }
{
    s.iter().position(|b| *b == c).unwrap_or(s.len())
}

// The part before the first c: all of s where there is none.
#[tactic(auto, using(crate::proofs::PartLaws::index_within))]
pub fn part_before(s: &[u8], c: u8) -> &[u8]
    ensures { result.now ≡ before c s.now }
{
    &s[..find(s, c)]
}

// The part after the first c: nothing where there is none.
#[tactic(auto, using(crate::proofs::PartLaws::index_within))]
pub fn part_after(s: &[u8], c: u8) -> &[u8]
    ensures { result.now ≡ after c s.now }
{
    part_from(s, find(s, c) + 1)
}

// The part from n on: nothing where n is past the end.
pub fn part_from(s: &[u8], n: usize) -> &[u8]
    ensures { result.now ≡ drop n s.now }
{
    &s[n.min(s.len())..]
}

// The first n bytes: all of s where there are fewer.
pub fn part_to(s: &[u8], n: usize) -> &[u8]
    ensures { result.now ≡ take n s.now }
{
    &s[..n.min(s.len())]
}

// Whether s starts with the bytes of k.
// The slice's own test, under the definitions' word `begins`: callers have the fact about `begins` from its contract.
pub fn starts_with(s: &[u8], k: &[u8]) -> bool
    ensures { result ≡ begins k.now s.now }
{
    s.starts_with(k)
}

// Whether s is k.
// The slice's own test, under the definitions' word `same`: callers have the fact about `same` from its contract.
pub fn is_text(s: &[u8], k: &[u8]) -> bool
    ensures { result ≡ same k.now s.now }
{
    s == k
}
