// The index: chains of rows, one to a bucket of a hash of their keys. A bucket's number is one more than the last row of its chain, a
// row's number one more than the row before it there; 0 ends a chain: the memory is lent by C as numbers.
ghost use Rattle.std.specs.Prelude.{◌≡◌, true, ◌+◌, ◌≤◌, ◌<◌, length, replicate};
ghost use Rattle.words.specs.Keys.{same_key};
ghost use Rattle.terms.specs.Branch.{first};
ghost use Rattle.rows.specs.Lent.{row_key};
ghost use Rattle.rows.specs.There.{HasKey, HasKeys};
ghost use Rattle.branches.specs.Probe.{sought_by, files};
ghost use Rattle.branches.specs.Chains.{stirred, spread, class_of, bucket_of, pushed, Linked, Spare, Walked};
ghost use Rattle.branches.specs.Index.{Indexes, Spares, SameIndex, SameIf, InMemory};

use crate::{Index, Sought, probe};
use rows::Rows;

// One word taken into a hash.
#[tactic(auto, using(crate::proofs::HashLaws::mix_fits), unfolding(crate::specs::Chains::stirred))]
fn mix(h: u64, v: u64) -> u64
    ensures { result ≡ stirred h v }
{
    let low = (h / 4294967296 + h % 4294967296 + v % 4294967296) % 4294967296;
    low * 2135587861 + v / 4294967296 * 1640531527
}

// The bucket of a hash.
#[tactic(auto, using(crate::proofs::HashLaws::product_fits), unfolding(crate::specs::Chains::spread))]
fn bucket(h: u64, buckets: usize) -> usize
    requires { buckets < 4294967296 }
    ensures { result ≡ spread h buckets }
{
    let low = (h / 4294967296 + h % 4294967296) % 4294967296;
    low as usize * buckets / 4294967296
}

impl Index<'_> {
    // The bucket of a row's key. It is that of the key looked for from the row too: of each word and the word looked for the smaller is hashed. Inlined: as a
    // call, a run of rotations takes a tenth more instructions.
    #[inline(always)]
    pub(crate) fn bucket_of(&self, rows: &Rows<'_>, row: usize, sought: Sought) -> usize
        requires { (0 < self.now.buckets) × ((self.now.buckets < 4294967296) × HasKey rows.now row) }
        ensures { (result ≡ bucket_of self.now.buckets (class_of rows.now.w sought (row_key rows.now row))) × (result < self.now.buckets) }
    {
        let base = row * (2 * rows.w);
        let mut h = 0;
        for k in 0..2 * rows.w {
            let v = rows.words[base + k];
            h = mix(h, v.min(probe::sought_word(v, k, rows.w, sought)));
        }
        bucket(h, self.buckets)
    }

    // The first row of a chain that has the key looked for from row i. `at` is one more than a row, or 0, as the numbers of the index are: the loop goes
    // from row to row, not by a count. Inlined: as a call with an Option for its answer a run of rotations takes 6 % more instructions, inlined 18 % fewer.
    #[inline(always)]
    pub(crate) fn walk(
        &self,
        rows: &Rows<'_>,
        n: usize,
        sought: Sought,
        i: usize,
        b: usize,
    ) -> Option<usize>
        requires { HasKeys rows.now n × (HasKey rows.now i × ((b < self.now.buckets) × Linked n self.now.buckets self.now.memory.now)) }
        ensures { Walked sought rows.now.w rows.now.words.now n self.now.buckets self.now.memory.now i b result }
    {
        let mut at = self.memory[b] as usize;
        let mut best = None;
        while 0 < at {
            let j = at - 1;
            if probe::is_sought(rows, i, j, sought) {
                best = Some(j);
            }
            at = self.memory[self.buckets + j] as usize;
        }
        best
    }

    // Puts row m in front of a bucket's chain.
    pub(crate) fn link(&mut self, m: usize, b: usize)
        requires { (m + 1 < 4294967296) × ((self.old.buckets + m < length self.old.memory.now) × (b < self.old.buckets)) }
        ensures same { SameIndex self.old self.new }
        ensures linked { self.new.memory.now ≡ pushed m self.old.buckets b self.old.memory.now }
    {
        let at = self.buckets + m;
        let head = self.memory[b];
        self.memory[at] = head;
        self.memory[b] = (m + 1) as u32;
    }
}

// The first row below n that has the key looked for from row i: by the index, or by a scan if there is none.
pub(crate) fn find(
    rows: &Rows<'_>,
    index: &Option<Index<'_>>,
    n: usize,
    sought: Sought,
    i: usize,
) -> Option<usize>
    requires { HasKeys rows.now n × (HasKey rows.now i
        × ((files rows.now.w sought (sought_by rows.now.w sought (row_key rows.now i)) ≡ true) × Indexes sought rows.now n index.now)) }
    ensures { result ≡ first (λ j. same_key (row_key rows.now j) (sought_by rows.now.w sought (row_key rows.now i))) n }
{
    let Some(index) = index else {
        return probe::scan(rows, n, sought, i);
    };
    let b = index.bucket_of(rows, i, sought);
    index.walk(rows, n, sought, i, b)
}

// Adds row m to an index of the first m rows, if it is to have the row.
pub(crate) fn push(rows: &Rows<'_>, index: &mut Option<Index<'_>>, m: usize, sought: Sought)
    requires { HasKey rows.now m × (Spares (m + 1) index.old × Indexes sought rows.now m index.old) }
    ensures same { SameIf index.old index.new }
    ensures indexed { Indexes sought rows.now (m + 1) index.new }
{
    let Some(index) = index else {
        return;
    };
    if probe::key_files(probe::key(rows, m), rows.w, sought) {
        let b = index.bucket_of(rows, m, sought);
        index.link(m, b);
    }
}

// Sets all of the memory to zero.
pub fn clear(memory: &mut [u32])
    ensures { memory.new ≡ replicate (length memory.old) 0 }
{
    memory.fill(0);
}

// How many buckets an index of so many rows has in so much memory: two to a row, or fewer, but at least one to two rows; else none.
fn buckets_for(long: usize, rows: usize) -> Option<usize>
    ensures { Spare rows result long }
{
    if 2000000000 < rows || long <= rows + rows / 2 {
        return None;
    }
    Some((long - rows).min(2 * rows + 1))
}

// Makes an index of the first n rows, in memory for `cap` rows; none if the memory is too short.
pub(crate) fn build<'a>(
    rows: &Rows<'_>,
    memory: &'a mut [u32],
    n: usize,
    cap: usize,
    sought: Sought,
) -> Option<Index<'a>>
    requires { HasKeys rows.now n × (n ≤ cap) }
    ensures memory { InMemory memory.entry result }
    ensures indexed { Indexes sought rows.now n result × Spares cap result }
{
    let buckets = buckets_for(memory.len(), cap)?;
    memory[..buckets].fill(0);
    let mut index = Some(Index { memory, buckets });
    for i in 0..n {
        push(rows, &mut index, i, sought);
    }
    index
}
