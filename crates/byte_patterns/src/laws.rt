//! Laws of what is prescribed of patterns.
ghost use Rattle.std.specs.Prelude.{◌≡◌, List, Option, Result, true};
ghost use Rattle.byte_patterns.specs.Answers.{Answer, Asking, Comes, has_big, judged};
ghost use Rattle.byte_patterns.specs.Examples.{WorkedPatterns};
ghost use Rattle.byte_patterns.specs.Judging.{Denial, under, is_sized};
ghost use Rattle.plain_model.specs.declared.fault.Fault.{Fault};
ghost use Rattle.plain_model.specs.declared.id.AnyId.{AnyId};

/// What comes of the answers of `build`, call by call, is what is prescribed under at most one denial, and the other way round. A
/// size is refused in the one exactly where it is in the other.
pub fn answers_are_denials()
    ensures denial { (asking : Asking (List AnyId)) (answers : List Answer)
        (out : Result (List AnyId) Fault) → Comes asking answers out →
        (denial : Option Denial) × (is_sized denial ≡ has_big answers)
        × (under denial (judged asking) ≡ out) }
    ensures answers { (asking : Asking (List AnyId)) (denial : Option Denial) →
        (answers : List Answer) × Comes asking answers (under denial (judged asking))
        × (has_big answers ≡ true → is_sized denial ≡ true) }
{}

/// What the definitions give for some texts.
pub fn worked_patterns()
    ensures { WorkedPatterns }
{}
