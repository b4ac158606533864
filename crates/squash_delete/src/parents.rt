//! The parents that commits get in place of removed ones.
ghost use Rattle.std.specs.Prelude.{◌≡◌, OnOk};
ghost use Rattle.event_arena.specs.Changes.{changed, with_parents};
ghost use Rattle.plain_model.specs.declared.id.AnyId.TheVariants.{Commit};
ghost use Rattle.plan_steps.specs.Leaving.{with_all_parents};

use event_arena::Plan;
use graph_walk::ParentChanges;
use plain_model::{AnyId, CommitId, NoMemory, ParentList};

// Gives a commit other parents, if it is there.
fn give(plan: &mut Plan, commit: CommitId, parents: &ParentList) -> Result<(), NoMemory>
    ensures { OnOk result (plan.new ≡ record plan.old {
      after = changed (Commit commit) (with_parents parents.now) plan.old.after;
    }) }
{
    match plan.place(AnyId::Commit(commit)) {
        Some(_) => plan.set_parents(commit, parents.copy()?),
        None => Ok(()),
    }
}

/// Gives commits other parents, one after another.
pub fn give_parents(plan: &mut Plan, changes: &ParentChanges) -> Result<(), NoMemory>
    ensures { OnOk result (plan.new ≡ record plan.old {
      after = with_all_parents changes.now plan.old.after;
    }) }
{
    for change in changes.as_slice() {
        give(plan, change.0, &change.1)?;
    }
    Ok(())
}
