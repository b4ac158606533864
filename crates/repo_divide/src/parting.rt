//! The plan without a link.
ghost use Rattle.std.specs.Prelude.{◌≡◌, IfOk};
ghost use Rattle.divide_laws.specs.Divide.{parted, without_parent};
ghost use Rattle.manifest_cache.specs.Kept.{AgreesWith};

use divide_laws::Link;
use event_arena::{Events, Plan};
use manifest_cache::Manifests;
use plain_model::{CommitId, NoMemory, ParentList};
use plan_steps::{give_ops, give_parents, ops_of, parents_of};
use reparent_rebase::{have_same_first, written_out};
use std::alloc::Global;

// All parents but one.
fn without_parent(
    alloc: Global,
    parent: CommitId,
    parents: &[CommitId],
) -> Result<ParentList, NoMemory>
    ensures { IfOk result (λ made. made ≡ without_parent parent parents.now) }
{
    let mut made = ParentList::new(alloc)?;
    for other in parents {
        if *other != parent {
            made.push(*other)?;
        }
    }
    Ok(made)
}

/// The plan in which the child of a link has lost the parent, and keeps its tree.
pub fn parted(
    alloc: Global,
    events: &Events,
    manifests: &mut Manifests,
    cut: Link,
) -> Result<Plan, NoMemory>
    requires agrees { AgreesWith events.now.list manifests.old }
    ensures after { IfOk result (λ plan. plan.after ≡ parted events.now.list cut) }
    ensures kept { AgreesWith events.now.list manifests.new }
{
    let _count = events.count();
    let child = cut.child;
    let mut plan = Plan::new(alloc, events)?;
    let old = parents_of(events, child);
    let parents = without_parent(alloc, cut.parent, old)?;
    let same = have_same_first(old, parents.as_slice());
    give_parents(&mut plan, child, parents)?;
    if same {
        return Ok(plan);
    }
    let ops = written_out(alloc, events, manifests, old, ops_of(events, child))?;
    give_ops(&mut plan, child, ops)?;
    Ok(plan)
}
