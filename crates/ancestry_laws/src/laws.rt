//! Laws of ancestry. A caller has a law by a call of its function.
ghost use Rattle.std.specs.Prelude.{◌∷◌, ◌↔◌, [], ℕ, IsTrue, List};
ghost use Rattle.ancestry_laws.specs.Ancestry.{IsPathOfParents, descends};
ghost use Rattle.plain_model.specs.Soundness.{IsCommitOf, IsSound};
ghost use Rattle.plain_model.specs.declared.event.PlainEvent.{PlainEvent};

/// A commit descends from another exactly where a path of parents leads from the one to the other.
pub fn descent_is_a_path()
    ensures { (events : List PlainEvent) (low high : ℕ) → IsSound events → IsCommitOf events high →
        IsTrue (descends events (low ∷ []) high) ↔ IsPathOfParents events low high }
{}
