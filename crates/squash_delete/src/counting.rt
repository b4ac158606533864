//! Limits of what is left.
ghost use Rattle.std.specs.Prelude.{◌≡◌, Err};
ghost use Rattle.plain_model.specs.declared.fault.Fault.TheVariants.{Limit};
ghost use Rattle.edit_laws.specs.Checking.{unless};
ghost use Rattle.squash_delete.specs.Judged.{judged, limit_passed};

use event_arena::Plan;
use plain_model::{Fault, MAX_ALIASES, MAX_EVENTS, MAX_OPERATIONS, MAX_PARENTS, Which};
use plan_steps::{has_many, has_many_events};

fn limit(which: Which, number: u64) -> Result<(), Fault>
    ensures { result ≡ Err (Limit which number) }
{
    Err(Fault::Limit { which, number })
}

/// What is left in a plan: all of it, whose commits have few enough parents or not, or only that there are too many
/// operations.
#[derive(Clone, Copy)]
pub enum Left {
    All { few: bool },
    ManyOperations,
}

// The limits of all that is left.
fn judge_all(plan: &Plan, few: bool) -> Result<(), Fault>
    ensures { result ≡ unless (limit_passed few plan.now.after) }
{
    let many = has_many(plan);
    if has_many_events(plan) {
        return limit(Which::Events, MAX_EVENTS);
    }
    if many.operations {
        return limit(Which::Operations, MAX_OPERATIONS);
    }
    if !few {
        return limit(Which::Parents, MAX_PARENTS);
    }
    if many.aliases {
        return limit(Which::Aliases, MAX_ALIASES);
    }
    Ok(())
}

/// The limits of what is left.
pub fn judge(plan: &Plan, left: Left) -> Result<(), Fault>
    ensures { result ≡ unless (judged left plan.now.after) }
{
    match left {
        Left::All { few } => judge_all(plan, few),
        Left::ManyOperations => limit(Which::Operations, MAX_OPERATIONS),
    }
}
