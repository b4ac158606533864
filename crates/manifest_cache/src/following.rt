//! What is kept after a plan: the trees of those commits whose line of first parents is the same.
ghost use Rattle.std.specs.Prelude.{◌≡◌, ◌∷◌, ◌++◌, ◌↔◌, ℕ, [], IfSome, IsSome, IsTrue};
ghost use Rattle.manifest_cache.specs.Following.{
  Follows,
  HasSameLine,
  IsKnown,
  Says,
  Turns,
  is_earlier,
};
ghost use Rattle.manifest_cache.specs.Kept.{AgreesWith, Kept};
ghost use Rattle.manifest_cache.specs.Lines.{line};
ghost use Rattle.plain_model.specs.Trees.{Tree};

use crate::equal_ops::same_ops;
use crate::walk::{Trees, first_parent};
use event_arena::Plan;
use plain_model::{AnyId, CommitId};

/// A commit, and whether its line is the same.
#[derive(Clone, Copy)]
pub struct Known {
    pub commit: CommitId,
    pub same: bool,
}

/// What is to be looked at next for a commit's line.
#[derive(Clone, Copy)]
pub enum Step {
    /// Nothing: the commit is the same root.
    Root,
    /// The same first parent's line.
    To(CommitId),
    /// Nothing: the line is another.
    Other,
}

fn is_earlier(plan: &Plan, one: CommitId, other: CommitId) -> bool
    ensures { result ≡ is_earlier plan.now.after one other }
{
    match (
        plan.place(AnyId::Commit(one)),
        plan.place(AnyId::Commit(other)),
    ) {
        (Some(one), Some(other)) => one < other,
        _ => false,
    }
}

// One step back along first parents, before and after at once.
fn step_back(plan: &Plan, commit: CommitId) -> Step
    requires { IsSome (line plan.now.before commit) }
    ensures { Says plan.now.before plan.now.after commit result }
{
    // Their contracts say that no commit is twice in either list.
    let _ = plan.old_count();
    let _ = plan.count();
    let Some(old) = plan.old_event(AnyId::Commit(commit)) else {
        return Step::Other;
    };
    let Some(new) = plan.event(AnyId::Commit(commit)) else {
        return Step::Other;
    };
    if !same_ops(old.ops(), new.ops()) {
        return Step::Other;
    }
    match (first_parent(old), first_parent(new)) {
        (None, None) => Step::Root,
        (None, Some(_)) => Step::Other,
        (Some(_), None) => Step::Other,
        (Some(parent), Some(other)) => {
            if parent.number() != other.number() {
                return Step::Other;
            }
            if !is_earlier(plan, other, commit) {
                return Step::Other;
            }
            Step::To(parent)
        }
    }
}

// Whether the line of a commit is the same, where this is known of another one, which may be on it.
fn has_same_line(plan: &Plan, commit: CommitId, known: &Option<Known>) -> bool
    requires there { IsSome (line plan.now.before commit) }
    requires known { IfSome known.now (IsKnown plan.now.before plan.now.after) }
    ensures { IsTrue result ↔ HasSameLine plan.now.before plan.now.after commit }
{
    let mut at = commit;
    loop {
        if let Some(known) = known {
            if known.commit.number() == at.number() {
                return known.same;
            }
        }
        match step_back(plan, at) {
            Step::Root => return true,
            Step::To(parent) => at = parent,
            Step::Other => return false,
        }
    }
}

// Looks at the tree that was used longest ago: it goes first where its commit's line is the same, else away.
fn turn(kept: &mut Trees, plan: &Plan, known: &mut Option<Known>)
    requires agrees { AgreesWith plan.now.before kept.old.entries }
    requires known { IfSome known.old (IsKnown plan.now.before plan.now.after) }
    ensures turns { (k : ℕ × Tree) (others : Kept) → kept.old.entries ≡ others ++ k ∷ [] →
        Turns plan.now.before plan.now.after k others kept.new.entries }
    ensures known { IfSome known.new (IsKnown plan.now.before plan.now.after) }
    ensures cap { kept.new.cap ≡ kept.old.cap }
{
    // Its contract says that no commit is kept twice.
    let _ = kept.len();
    let commit = match kept.peek_lru() {
        Some((number, _)) => CommitId::new(*number),
        None => return,
    };
    let same = has_same_line(plan, commit, known);
    *known = Some(Known { commit, same });
    if same {
        kept.promote(&commit.number());
    } else {
        let _ = kept.pop_lru();
    }
}

/// Keeps the trees of the commits whose line is the same before and after. A line is looked at down
/// to the commit that was looked at before, so where the trees of one line were used from its root on, each commit
/// of it is looked at once.
pub fn follow(kept: &mut Trees, plan: &Plan)
    requires { AgreesWith plan.now.before kept.old.entries }
    ensures follows { Follows plan.now.before plan.now.after kept.old.entries kept.new.entries }
    ensures cap { kept.new.cap ≡ kept.old.cap }
{
    let mut known = None;
    let count = kept.len();
    for turns in 0..count {
        turn(kept, plan, &mut known);
    }
}
