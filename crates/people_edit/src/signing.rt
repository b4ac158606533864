//! Who signs an event of a plan.
ghost use Rattle.std.specs.Prelude.{◌≡◌, IsSome, OnOk};
ghost use Rattle.event_arena.specs.Changes.{changed, with_signed};
ghost use Rattle.event_arena.specs.declared.field.Role.TheVariants as role;
ghost use Rattle.plain_model.specs.Lookups.{find_event};
ghost use Rattle.plain_model.specs.declared.id.AnyId.TheVariants.{Commit};

use event_arena::{Plan, Role};
use plain_model::{AnyId, CommitId, NoMemory, Signed};

/// Gives a commit that is there another author and another committer.
pub fn set_both(
    plan: &mut Plan,
    id: CommitId,
    author: Signed,
    committer: Signed,
) -> Result<(), NoMemory>
    requires { IsSome (find_event (Commit id) plan.old.after) }
    ensures { OnOk result (plan.new ≡ record plan.old {
      after = changed (Commit id) (λ event. with_signed role.Committer committer (with_signed role.Author author event)) plan.old.after;
    }) }
{
    plan.set_signed(AnyId::Commit(id), Role::Author, author)?;
    plan.set_signed(AnyId::Commit(id), Role::Committer, committer)
}
