//! What holds of every sample.
ghost use Rattle.std.specs.Prelude.{◌≤◌, ℕ, length};
ghost use Rattle.plain_model.specs.declared.limit.TheConstants.{MAX_ALIASES, MAX_EVENTS, MAX_OPERATIONS};
ghost use Rattle.plain_model.specs.Lookups.{alias_count};
ghost use Rattle.plain_model.specs.Soundness.{IsSound};
ghost use Rattle.history_laws.specs.Counts.{ops_in};
ghost use Rattle.sample_history.specs.Sample.{sample};

/// Every sample is a sound history, and within the limits of events, operations and aliases.
pub fn samples_are_lawful()
    ensures sound { (count start : ℕ) → IsSound (sample count start) }
    ensures few_events { (count start : ℕ) → length (sample count start) ≤ MAX_EVENTS }
    ensures few_operations { (count start : ℕ) → ops_in (sample count start) ≤ MAX_OPERATIONS }
    ensures few_aliases { (count start : ℕ) → alias_count (sample count start) ≤ MAX_ALIASES }
{}
