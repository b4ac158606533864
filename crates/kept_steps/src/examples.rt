//! Small examples of which event is which, computed by the checker.
ghost use Rattle.std.specs.Prelude.{◌≡◌, [], ◌∷◌, codes};
ghost use Rattle.graft_laws.specs.Examples.{all_kinds, library, one, part, three, two};
ghost use Rattle.graft_laws.specs.Unite.{Part, by_age};
ghost use Rattle.kept_steps.specs.Following.{event_behind, event_united};

/// Behind a history whose numbers are below 4 another one's events have the numbers from 4 on, without the lines that are passed
/// through. Of three histories that become one the oldest keeps its numbers, and those of the others come after them by age.
pub fn numbers_are_followed_back()
    ensures own { event_behind (codes "base") 4 (part (codes "lib") library ∷ []) 3
        ≡ record { repo = codes "base"; number = 3 } }
    ensures grafted { event_behind (codes "base") 4 (part (codes "lib") library ∷ []) 5
        ≡ record { repo = codes "lib"; number = 2 } }
    ensures kinds { event_behind (codes "base") 4 (part (codes "lib") all_kinds ∷ []) 8
        ≡ record { repo = codes "lib"; number = 3 } }
    ensures oldest { event_united (by_age (λ (part : Part). part.events) (one ∷ two ∷ three ∷ [])) 2
        ≡ record { repo = codes "one"; number = 2 } }
    ensures next { event_united (by_age (λ (part : Part). part.events) (one ∷ two ∷ three ∷ [])) 4
        ≡ record { repo = codes "three"; number = 6 } }
    ensures last { event_united (by_age (λ (part : Part). part.events) (one ∷ two ∷ three ∷ [])) 7
        ≡ record { repo = codes "two"; number = 2 } }
{}
