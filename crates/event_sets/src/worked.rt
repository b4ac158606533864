//! Worked sets, computed by the checker.
ghost use Rattle.event_sets.specs.Examples.{WorkedSets};

/// What the definitions give for a history with a fork.
pub fn worked_sets()
    ensures { WorkedSets }
{}
