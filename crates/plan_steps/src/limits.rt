//! Limits of the list after a plan.
ghost use Rattle.std.specs.Prelude.{◌≡◌, ◌≤◌, ◌+◌, length, nat_lt, true};
ghost use Rattle.std.specs.List.{list_any};
ghost use Rattle.edit_laws.specs.Passing.{limit_fault};
ghost use Rattle.history_laws.specs.FirstParents.{ops_along};
ghost use Rattle.plain_model.specs.Histories.{nodes};
ghost use Rattle.plain_model.specs.Lookups.{alias_count, event_parents};
ghost use Rattle.plain_model.specs.declared.limit.TheConstants.{
  MAX_ALIASES,
  MAX_EVENTS,
  MAX_OPERATIONS,
  MAX_PARENTS,
};
ghost use Rattle.plan_steps.specs.Counts.{IsSum, count_of};

use event_arena::Plan;
use plain_model::{
    CommitId, Fault, MAX_ALIASES, MAX_EVENTS, MAX_OPERATIONS, MAX_PARENTS, PlainEvent, Which,
};

/// What is counted of all events together.
#[derive(Clone, Copy)]
enum Counted {
    Operations,
    Aliases,
}

// How many an event has.
fn count_of(event: &PlainEvent, what: Counted) -> u64
    ensures { result ≡ count_of what event.now }
{
    match event {
        PlainEvent::Commit { ops, aliases, .. } => match what {
            Counted::Operations => ops.as_slice().len() as u64,
            Counted::Aliases => aliases.as_slice().len() as u64,
        },
        _ => 0,
    }
}

// Whether a sum is above a limit, and how much is left up to it where it isn't.
#[derive(Clone, Copy)]
struct Sum {
    left: u64,
    is_above: bool,
}

// A sum of nothing.
fn no_sum(most: u64) -> Sum
    ensures { IsSum most 0 result }
{
    Sum {
        left: most,
        is_above: false,
    }
}

// A sum with more.
fn add(sum: Sum, more: u64) -> Sum
    ensures { (most counted : _) → IsSum most counted sum → IsSum most (counted + more) result }
{
    if sum.is_above || sum.left < more {
        return Sum {
            left: 0,
            is_above: true,
        };
    }
    Sum {
        left: sum.left - more,
        is_above: false,
    }
}

/// Of what the commits of a plan have more than those of a history may have.
#[derive(Clone, Copy)]
pub struct Many {
    pub operations: bool,
    pub aliases: bool,
}

// Whether all events together weigh so little that neither limit can be passed.
fn is_light(plan: &Plan) -> bool
    ensures operations { result ≡ true → length (ops_along (nodes plan.now.after)) ≤ MAX_OPERATIONS }
    ensures aliases { result ≡ true → alias_count plan.now.after ≤ MAX_ALIASES }
{
    match plan.weight() {
        Some(most) => most as u64 <= MAX_OPERATIONS.min(MAX_ALIASES),
        None => false,
    }
}

/// Whether its commits have more operations or aliases than those of a history may have. It takes a pass only where they
/// may have.
pub fn has_many(plan: &Plan) -> Many
    ensures operations { result.operations
        ≡ nat_lt MAX_OPERATIONS (length (ops_along (nodes plan.now.after))) }
    ensures aliases { result.aliases ≡ nat_lt MAX_ALIASES (alias_count plan.now.after) }
{
    if is_light(plan) {
        return Many {
            operations: false,
            aliases: false,
        };
    }
    let mut operations = no_sum(MAX_OPERATIONS);
    let mut aliases = no_sum(MAX_ALIASES);
    for place in 0..plan.count() {
        let event = plan.nth(place);
        operations = add(operations, count_of(event, Counted::Operations));
        aliases = add(aliases, count_of(event, Counted::Aliases));
    }
    Many {
        operations: operations.is_above,
        aliases: aliases.is_above,
    }
}

/// Whether a plan leaves more events than a history may have.
pub fn has_many_events(plan: &Plan) -> bool
    ensures { result ≡ nat_lt MAX_EVENTS (length plan.now.after) }
{
    MAX_EVENTS < plan.count() as u64
}

// Whether these are more parents than a commit may have.
fn has_too_many(parents: &[CommitId]) -> bool
    ensures { result ≡ nat_lt MAX_PARENTS (length parents.now) }
{
    MAX_PARENTS < parents.len() as u64
}

/// Whether one of its commits has more parents than a commit may have.
pub fn has_many_parents(plan: &Plan) -> bool
    ensures { result
        ≡ list_any (λ e. nat_lt MAX_PARENTS (length (event_parents e))) plan.now.after }
{
    for place in 0..plan.count() {
        if has_too_many(plan.after().parents_at(place)) {
            return true;
        }
    }
    false
}

/// The first limit that a plan's list passes, if it passes one.
pub fn limit_passed(plan: &Plan) -> Option<Fault>
    ensures { result ≡ limit_fault plan.now.after }
{
    let many = has_many(plan);
    let (which, number) = if has_many_events(plan) {
        (Which::Events, MAX_EVENTS)
    } else if many.operations {
        (Which::Operations, MAX_OPERATIONS)
    } else if has_many_parents(plan) {
        (Which::Parents, MAX_PARENTS)
    } else if many.aliases {
        (Which::Aliases, MAX_ALIASES)
    } else {
        return None;
    };
    Some(Fault::Limit { which, number })
}
