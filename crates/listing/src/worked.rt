//! Worked lists.
ghost use Rattle.listing.specs.Examples.{ExportedLists, RarerLists, SharedLists};

/// What the definitions give for three histories.
pub fn worked_lists()
    ensures exported { ExportedLists }
    ensures rarer { RarerLists }
    ensures shared { SharedLists }
{}
