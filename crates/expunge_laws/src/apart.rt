//! Laws of paths of which none is a folder of another one. Each function's contract is one, and its body is empty.
ghost use Rattle.std.specs.Prelude.{◌≡◌, [], ◌∷◌, Bool, List, map};
ghost use Rattle.std.specs.List.{AllByRecursion};
ghost use Rattle.plain_model.specs.declared.event.PlainEvent.{PlainEvent};
ghost use Rattle.plain_model.specs.Paths.{Bytes};
ghost use Rattle.plain_model.specs.Soundness.{IsSound};
ghost use Rattle.expunge_laws.specs.Apart.{AllOps, IsApart, event_without};
ghost use Rattle.expunge_laws.specs.Expunged.{replaced_event, replaced_events};
ghost use Rattle.expunge_laws.specs.Untouched.{may_touch};

/// Where nothing that stays conflicts with the matched paths that a commit names, what names a matched path goes, and
/// all else stays as it is, in its order: no tree has to be looked at.
pub fn what_names_matched_paths_goes()
    ensures commits { (matched : Bytes → Bool) (events : List PlainEvent) → IsSound events →
        AllByRecursion (λ e. AllOps (IsApart matched events) (e ∷ []) →
        replaced_event matched events e ≡ event_without (may_touch matched) e) events }
    ensures all { (matched : Bytes → Bool) (events : List PlainEvent) → IsSound events →
        AllOps (IsApart matched events) events →
        replaced_events matched events ≡ map (event_without (may_touch matched)) events }
{}
