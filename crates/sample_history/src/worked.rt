//! Worked samples.
ghost use Rattle.sample_history.specs.Examples.{WorkedSamples};

/// What the definition gives for few commits.
pub fn worked_samples()
    ensures { WorkedSamples }
{}
