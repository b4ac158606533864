//! Worked selections, which the prover computes.
ghost use Rattle.selection_eval.specs.Examples.{
  ExportedSelections,
  ForkedSelections,
  MarkedSelections,
};

/// What the definition gives for three histories.
pub fn worked_selections()
    ensures exported { ExportedSelections }
    ensures forked { ForkedSelections }
    ensures marked { MarkedSelections }
{}
