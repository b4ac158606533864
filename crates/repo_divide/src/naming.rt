//! Which blobs the operations of some commits name.
ghost use Rattle.std.specs.Prelude.{◌≡◌, ℕ, Bool, length, map, IfOk};
ghost use Rattle.divide_laws.specs.Sides.{is_commit_among, is_named_among};
ghost use Rattle.repo_divide.specs.BlobFlags.{AreBlobFlags};

use event_arena::Plan;
use plain_model::NoMemory;
use plan_steps::flag_blobs;
use std::alloc::Global;

/// Flags for the blobs that operations of the commits with flags name.
pub fn named(alloc: Global, plan: &Plan, commits: &[bool]) -> Result<Vec<bool>, NoMemory>
    requires { length commits.now ≡ length plan.now.after }
    ensures count { IfOk result (λ flags. length flags.items ≡ length plan.now.after) }
    ensures named { IfOk result (λ flags. (has : ℕ → Bool) →
        commits.now ≡ map (is_commit_among has) plan.now.after →
        AreBlobFlags plan.now.after (is_named_among has plan.now.after) flags.items) }
{
    let mut flags = vec![in alloc; false; plan.count()]?;
    for place in 0..plan.count() {
        if commits[place] {
            flag_blobs(plan, plan.nth(place).ops(), &mut flags);
        }
    }
    Ok(flags)
}
