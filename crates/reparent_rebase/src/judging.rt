//! What a plan leaves is judged: limits, trees.
ghost use Rattle.std.specs.Prelude.{◌≡◌};
ghost use Rattle.edit_laws.specs.Passing.{limit_fault};
ghost use Rattle.manifest_cache.specs.Kept.{AgreesWith};
ghost use Rattle.plain_model.specs.Faults.{Returns};
ghost use Rattle.plain_model.specs.Histories.{IsLinkedPast, past};
ghost use Rattle.reparent_laws.specs.Faults.{any_fault, tree_fault, unless_fault};

use event_arena::Plan;
use manifest_cache::Manifests;
use plain_model::Halt;
use plan_steps::limit_passed;

/// The first limit that a plan passes.
pub fn judge_limits(plan: &Plan) -> Result<(), Halt>
    ensures { Returns (λ _. plan.now.after) result
        (unless_fault (limit_fault plan.now.after) plan.now.after) }
{
    match limit_passed(plan) {
        Some(fault) => Err(Halt::Refused(fault)),
        None => Ok(()),
    }
}

/// The first operation of a plan that a tree refuses.
pub fn judge_trees(manifests: &mut Manifests, plan: &Plan) -> Result<(), Halt>
    requires agrees { AgreesWith plan.now.before manifests.old }
    requires earlier { IsLinkedPast (past plan.now.after) }
    ensures judged { Returns (λ _. plan.now.after) result
        (unless_fault (tree_fault plan.now.after) plan.now.after) }
    ensures kept { manifests.new ≡ manifests.old }
{
    match manifests.check(plan) {
        Ok(()) => Ok(()),
        Err(halt) => Err(halt),
    }
}

/// The first limit that a plan passes, or else the first operation that a tree refuses.
pub fn judge(manifests: &mut Manifests, plan: &Plan) -> Result<(), Halt>
    requires agrees { AgreesWith plan.now.before manifests.old }
    requires earlier { IsLinkedPast (past plan.now.after) }
    ensures judged { Returns (λ _. plan.now.after) result
        (unless_fault (any_fault plan.now.after) plan.now.after) }
    ensures kept { manifests.new ≡ manifests.old }
{
    match limit_passed(plan) {
        Some(fault) => Err(Halt::Refused(fault)),
        None => judge_trees(manifests, plan),
    }
}
