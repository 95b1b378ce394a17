// What a run starts from: its terms in the rows. Each start counts from 0 the terms that its ops meet.
ghost use Rattle.std.specs.Prelude.{◌≡◌, [], ◌∷◌, ◌*◌, ◌/◌, ◌≤◌, ◌<◌, leb, length, Ok};
ghost use Rattle.numbers.specs.Constants.{zero64, one64};
ghost use Rattle.words.specs.Rows.{key_at};
ghost use Rattle.terms.specs.Start.{term_of, merged};
ghost use Rattle.rows.specs.Lent.{row_count, OnRows};
ghost use Rattle.branches.specs.Started.{Started, lines_of};
ghost use Rattle.dynamics.specs.Turn.{going, state};
ghost use Rattle.dynamics.specs.Runs.{begin};
ghost use Rattle.dynamics.specs.Outcome.{z_key};
ghost use Rattle.turns.specs.Told.{tally, RowsTell};

use crate::{Progress, Tally};
use ops::{Limits, Observable};
use rows::Rows;

// A run with n terms, before its first op.
fn begun(n: usize) -> Progress
    ensures { result ≡ record { count = n; tally = tally n zero64 0 } }
{
    Progress {
        count: n,
        tally: Tally::begun(n),
    }
}

// All lines, merged.
pub(crate) fn start_lines(
    observable: Observable<'_>,
    limits: Limits,
    rows: &mut Rows<'_>,
    index: &mut [u32],
) -> Progress
    requires { (length observable.weights.now ≤ limits.limit) × (length observable.weights.now ≤ length observable.keys.now / (2 * rows.old.w))
        × (2 * limits.limit ≤ row_count rows.old) }
    ensures { RowsTell limits (Ok result)
        (going (begin (merged (lines_of rows.old.w observable.entry.keys.now observable.entry.weights.now (length observable.entry.weights.now)))))
        rows.old rows.new }
{
    rows::row::fits64(observable.keys);
    begun(branches::start::weighted_sum(rows, index, observable))
}

// Line i alone, at weight 1.
pub(crate) fn start_alone(keys: &[u64], i: usize, limits: Limits, rows: &mut Rows<'_>) -> Progress
    requires { (1 ≤ limits.limit) × (i < length keys.now / (2 * rows.old.w)) × (2 * limits.limit ≤ row_count rows.old) }
    ensures { RowsTell limits (Ok result) (going (begin (term_of rows.old.w (key_at (2 * rows.old.w) keys.now i) one64 ∷ []))) rows.old rows.new }
{
    begun(branches::start::single_term(rows, keys, i, 1.0))
}

// Z at one qubit, at weight 1, in row 0. Its key has at most 8 words.
fn put_z(rows: &mut Rows<'_>, q: usize) -> usize
    requires { (rows.old.w ≤ 4) × (q < 64 * rows.old.w) }
    ensures { OnRows (Started (leb 1 (row_count rows.old)) rows.old.w 1 (term_of rows.old.w (z_key rows.old.w q) one64 ∷ []) result) rows.old rows.new }
{
    let mut key = [0u64; 8];
    words::keys::flip_bit(&mut key, rows.w, q);
    branches::start::single_term(rows, &key, 0, 1.0)
}

// Z at one qubit; the peak and the discarded weight go on from an earlier run's.
pub(crate) fn start_z(q: usize, before: Tally, limits: Limits, rows: &mut Rows<'_>) -> Progress
    requires { (1 ≤ limits.limit) × (rows.old.w ≤ 4) × (q < 64 * rows.old.w) × (2 * limits.limit ≤ row_count rows.old) }
    ensures { RowsTell limits (Ok result) (going (state (term_of rows.old.w (z_key rows.old.w q) one64 ∷ []) before.peak before.discarded 0)) rows.old rows.new }
{
    let count = put_z(rows, q);
    Progress {
        count,
        tally: Tally {
            touched: 0,
            ..before
        },
    }
}
