// The t count of a run.
ghost use Rattle.std.specs.Prelude.{◌≡◌};
ghost use Rattle.dynamics.specs.Outcome.{t_count_of};

use ops::marks::t_count;
use ops::{Op, Run};

// The rotations among the ops; none are counted for `path` and `wide`.
pub fn run_t_count(run: Run, ops: &[Op]) -> usize
    ensures { result ≡ t_count_of run ops.now }
{
    match run {
        Run::Full | Run::Cone | Run::All => t_count(ops),
        Run::Path | Run::Wide => 0,
    }
}
