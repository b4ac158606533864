//! A commit of a plan gets other parents, or other operations.
ghost use Rattle.std.specs.Prelude.{◌≡◌, OnOk};
ghost use Rattle.event_arena.specs.Changes.{changed, with_ops, with_parents};
ghost use Rattle.plain_model.specs.declared.id.AnyId.TheVariants.{Commit};

use event_arena::Plan;
use plain_model::{AnyId, CommitId, NoMemory, OpList, ParentList};

/// Gives a commit other parents, if it is there.
pub fn give_parents(plan: &mut Plan, commit: CommitId, parents: ParentList) -> Result<(), NoMemory>
    ensures { OnOk result (plan.new ≡ record plan.old {
      after = changed (Commit commit) (with_parents parents) plan.old.after;
    }) }
{
    match plan.place(AnyId::Commit(commit)) {
        Some(_) => plan.set_parents(commit, parents),
        None => Ok(()),
    }
}

/// Gives a commit other operations, if it is there.
pub fn give_ops(plan: &mut Plan, commit: CommitId, ops: OpList) -> Result<(), NoMemory>
    ensures { OnOk result (plan.new ≡ record plan.old {
      after = changed (Commit commit) (with_ops ops) plan.old.after;
    }) }
{
    match plan.place(AnyId::Commit(commit)) {
        Some(_) => plan.set_ops(commit, ops),
        None => Ok(()),
    }
}
