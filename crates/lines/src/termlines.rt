// The weight and the factors on a `term` line, `term=WEIGHT:FACTORS`.
ghost use Rattle.std.specs.Prelude.{◌≡◌, true, ◌&&◌, ◌+◌, ◌*◌, drop, get_or};
ghost use Rattle.text.specs.Bytes.{after, colon};
ghost use Rattle.terms.specs.Lists.{foldl};
ghost use Rattle.lines.specs.TermLines.{is_factor, are_factors, factor_texts, is_term, is_term_line, sets_x, sets_z, factor_of, weight_on, factors_on, qubits_in, all_below, distinct, set_if, placed};

use text::decimals::read_decimal;
use text::parts::{find, part_after, part_before, part_from, starts_with};
use text::reals::read_real;
use words::keys::set_bit;

// The first byte, or 0.
// The default is the definition's: a factor that was read before has a first byte.
fn first_byte(p: &[u8]) -> u8
    ensures { result ≡ get_or p.now 0 0 }
{
    if p.is_empty() { 0 } else { p[0] }
}

// The number after the first byte: the qubit of a factor.
// The default 0 is the definition's: a factor that was read before has a qubit.
fn qubit_of(p: &[u8]) -> usize
    ensures { result ≡ (factor_of p.now).qubit }
{
    read_decimal(part_from(p, 1)).unwrap_or(0)
}

// Whether p is X, Y or Z and a qubit.
fn is_factor(p: &[u8]) -> bool
    ensures { result ≡ is_factor p.now }
{
    matches!(first_byte(p), b'X'..=b'Z') && read_decimal(part_from(p, 1)).is_some()
}

// Whether every text between the commas of f is a factor. No text has no factors.
// Each function that goes through the factors tests for no text: no function can hand out the parts, as `impl Iterator` gets no proof.
fn are_factors(f: &[u8]) -> bool
    ensures { result ≡ are_factors (factor_texts f.now) }
{
    f.is_empty() || f.split(|b| *b == b',').all(|p| is_factor(p))
}

// Whether v is a real, a colon, and factors.
fn is_term(v: &[u8]) -> bool
    ensures { result ≡ is_term v.now }
{
    find(v, b':') < v.len()
        && read_real(part_before(v, b':')).is_some()
        && are_factors(part_after(v, b':'))
}

// Whether l is laid out as a `term` line.
pub fn is_term_line(l: &[u8]) -> bool
    ensures { result ≡ is_term_line l.now }
{
    starts_with(l, b"term=") && is_term(part_from(l, 5))
}

// The weight on a `term` line, or 0.
// The default is the definition's: a line that was read before, by question 1, has a weight.
pub fn weight_on(l: &[u8]) -> f64
    ensures { result ≡ weight_on l.now }
{
    read_real(part_before(part_from(l, 5), b':')).unwrap_or(0.0)
}

// The text of the factors on a `term` line.
fn factors_text(l: &[u8]) -> &[u8]
    ensures { result.now ≡ after colon (drop 5 l.now) }
{
    part_after(part_from(l, 5), b':')
}

// Whether the qubits on a `term` line are below n.
pub fn factors_below(l: &[u8], n: usize) -> bool
    ensures { result ≡ all_below n (qubits_in (factors_on l.now)) }
{
    let f = factors_text(l);
    f.is_empty() || f.split(|b| *b == b',').all(|p| qubit_of(p) < n)
}

// Whether the qubits on a `term` line are distinct, where they are below 256; a line with another is told to have a repeat. Those seen so
// far are marked.
pub fn factors_distinct(l: &[u8]) -> bool
    ensures { (result ≡ (all_below 256 (qubits_in (factors_on l.now)) && distinct (qubits_in (factors_on l.now))))
        × (all_below 256 (qubits_in (factors_on l.now)) ≡ true → result ≡ distinct (qubits_in (factors_on l.now))) }
{
    let f = factors_text(l);
    if f.is_empty() {
        return true;
    }
    let mut seen = [false; 256];
    for p in f.split(|b| *b == b',') {
        let q = qubit_of(p);
        if 256 <= q || seen[q] {
            return false;
        }
        seen[q] = true;
    }
    true
}

// Whether the letter b sets x: X and Y do.
fn sets_x(b: u8) -> bool
    ensures { result ≡ sets_x b }
{
    b == b'X' || b == b'Y'
}

// Whether the letter b sets z: Y and Z do.
fn sets_z(b: u8) -> bool
    ensures { result ≡ sets_z b }
{
    b == b'Y' || b == b'Z'
}

// Sets bit i, counted from the word `base`, where b is true.
fn set_if(b: bool, base: usize, i: usize, key: &mut [u64])
    ensures { key.new ≡ set_if b (64 * base + i) key.old }
{
    if b {
        set_bit(key, base, i);
    }
}

// Sets the bits of the factor p in a key whose z-words start at w.
fn place_factor(p: &[u8], w: usize, key: &mut [u64])
    ensures { key.new ≡ placed w key.old (factor_of p.now) }
{
    let b = first_byte(p);
    let q = qubit_of(p);
    set_if(sets_x(b), 0, q, key);
    set_if(sets_z(b), w, q, key);
}

// Sets the bits of the factors on a `term` line in a key whose z-words start at w.
pub fn place_factors(l: &[u8], w: usize, key: &mut [u64])
    ensures { key.new ≡ foldl (placed w) key.old (factors_on l.now) }
{
    let f = factors_text(l);
    if f.is_empty() {
        return;
    }
    for p in f.split(|b| *b == b',') {
        place_factor(p, w, key);
    }
}
