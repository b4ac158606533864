//! The children of several commits.
ghost use Rattle.std.specs.Prelude.{◌≡◌, ◌++◌, IfOk, OnOk};
ghost use Rattle.graph_walk.specs.Children.{children_of_all, own_children};
ghost use Rattle.plain_model.specs.declared.id.AnyId.TheVariants.{Commit};

use event_arena::Events;
use plain_model::{AnyId, CommitId, IdList, NoMemory};
use std::alloc::Global;

// Puts the children of a commit at the end.
fn push_children(events: &Events, commit: CommitId, list: &mut IdList) -> Result<(), NoMemory>
    ensures { OnOk result (list.new ≡ list.old ++ own_children events.now.list (Commit commit)) }
{
    for child in events.children(commit) {
        list.push(AnyId::Commit(child))?;
    }
    Ok(())
}

/// The children of the commits among these ids, one commit's after another's. It looks at them alone.
pub fn children_of_all(alloc: Global, events: &Events, ids: &[AnyId]) -> Result<IdList, NoMemory>
    ensures { IfOk result (λ list. list ≡ children_of_all events.now.list ids.now) }
{
    let mut list = IdList::new(alloc)?;
    for id in ids {
        if let AnyId::Commit(commit) = id {
            push_children(events, *commit, &mut list)?;
        }
    }
    Ok(list)
}
