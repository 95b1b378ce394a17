// Sets of qubits below 256.
ghost use Rattle.std.specs.Prelude.{◌≡◌, ℕ, true, false, ◌||◌, ◌*◌, ◌/◌, ◌<◌, ◌≤◌, length, get_or, set};
ghost use Rattle.ops.specs.Sets.{list_of, meets_set, join_set, grown_by, letter_in, letters_in, letters_in_any};

use crate::marks::Targets;
use words::keys::get_bit;

// Whether each qubit below 256 is in the set. A qubit at or past 256 is in no set. An array, so that a set needs no heap.
#[derive(Drop)]
pub(crate) struct QubitSet {
    members: [bool; 256],
    ghost long: { length members ≡ 256 },
}

impl QubitSet {
    fn has(&self, q: usize) -> bool
        ensures { result ≡ get_or self.now.members q false }
    {
        q < 256 && self.members[q]
    }

    fn insert(&mut self, q: usize)
        ensures { self.new.members ≡ set self.old.members q true }
    {
        if q < 256 {
            self.members[q] = true;
        }
    }

    // Whether one of the targets is in the set.
    #[tactic(auto, using(crate::proofs::MarkLaws::meets_none, crate::proofs::MarkLaws::meets_one, crate::proofs::MarkLaws::meets_two))]
    fn meets(&self, targets: Targets) -> bool
        ensures { result ≡ meets_set (list_of targets) self.now.members }
    {
        match targets {
            Targets::Nothing => false,
            Targets::One(a) => self.has(a),
            Targets::Two(a, b) => self.has(a) || self.has(b),
        }
    }

    // Adds the targets.
    #[tactic(auto, unfolding(crate::specs::Sets::join_set))]
    fn join(&mut self, targets: Targets)
        ensures { self.new.members ≡ join_set (list_of targets) self.old.members }
    {
        match targets {
            Targets::Nothing => {}
            Targets::One(a) => self.insert(a),
            Targets::Two(a, b) => {
                self.insert(b);
                self.insert(a);
            }
        }
    }

    // Adds the targets if one of them is in the set. The answer is whether one is.
    #[tactic(auto, using(crate::proofs::MarkLaws::grown_yes, crate::proofs::MarkLaws::grown_no))]
    pub(crate) fn grow(&mut self, targets: Targets) -> bool
        ensures met { result ≡ meets_set (list_of targets) self.old.members }
        ensures grown { self.new.members ≡ grown_by (list_of targets) self.old.members }
    {
        let met = self.meets(targets);
        if met {
            self.join(targets);
        }
        met
    }

    // Adds the qubits at which a word has a letter.
    fn add_letters(&mut self, w: usize, key: &[u64])
        ensures { (q : ℕ) → q < 256 → get_or self.new.members q false ≡ (get_or self.old.members q false || letter_in w key.now q) }
    {
        for q in 0..256 {
            if has_letter(w, key, q) {
                self.members[q] = true;
            }
        }
    }

    // The qubits at which a word has a letter.
    pub(crate) fn of_word(w: usize, key: &[u64]) -> QubitSet
        ensures { result.members ≡ letters_in w key.now }
    {
        let mut set = QubitSet {
            members: [false; 256],
        };
        set.add_letters(w, key);
        set
    }

    // The qubits at which one of the first n lines of a table has a letter.
    pub(crate) fn of_lines(w: usize, keys: &[u64], n: usize) -> QubitSet
        requires { n ≤ length keys.now / (2 * w) }
        ensures { result.members ≡ letters_in_any w keys.now n }
    {
        let mut set = QubitSet {
            members: [false; 256],
        };
        for i in 0..n {
            let base = i * (2 * w);
            set.add_letters(w, &keys[base..base + 2 * w]);
        }
        set
    }
}

// Whether a word has a letter at a qubit that it may not have words for. It is asked once for each qubit of a line, so a bool serves: rows has a number for
// it, asked of each row.
fn has_letter(w: usize, key: &[u64], q: usize) -> bool
    ensures { result ≡ letter_in w key.now q }
{
    q / 64 < w && (get_bit(key, 0, q) || get_bit(key, w, q))
}
