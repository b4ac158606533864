//! What events weigh: no less than the room that they need, and a number that is kept up from change to change.
ghost use Rattle.std.specs.Prelude.{◌≤◌, ◌<◌, ◌+◌, ◌^◌, IfSome};
ghost use Rattle.std.specs.Option.{SomeIff};
ghost use Rattle.event_arena.specs.Weights.{event_weight};

use plain_model::PlainEvent;

// What an event weighs, if that is below 2^64.
fn event_weight(event: &PlainEvent) -> Option<usize>
    ensures { SomeIff result (event_weight event.now < 2 ^ 64) (event_weight event.now) }
{
    match event {
        PlainEvent::Commit {
            parents,
            ops,
            aliases,
            ..
        } => {
            let named = parents.as_slice().len().checked_add(ops.as_slice().len())?;
            let more = named.checked_add(aliases.as_slice().len())?;
            more.checked_add(2)
        }
        _ => Some(3),
    }
}

/// A bound of some events and one more.
pub fn heavier(most: Option<usize>, event: &PlainEvent) -> Option<usize>
    ensures { (weight : _) → IfSome most (λ most. weight ≤ most)
        → IfSome result (λ most. weight + event_weight event.now ≤ most) }
{
    let most = most?;
    let own = event_weight(event)?;
    most.checked_add(own)
}

/// A bound of some events without one of them.
pub fn lighter(most: Option<usize>, event: &PlainEvent) -> Option<usize>
    ensures { (weight : _) → IfSome most (λ most. weight + event_weight event.now ≤ most)
        → IfSome result (λ most. weight ≤ most) }
{
    let most = most?;
    let own = event_weight(event)?;
    most.checked_sub(own)
}
