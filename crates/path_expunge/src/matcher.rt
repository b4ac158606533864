//! What an expunge looks for: one path, or a pattern in paths.
ghost use Rattle.std.specs.Prelude.{◌≡◌, ◌≤◌};
ghost use Rattle.byte_patterns.specs.Judging.{Judges};
ghost use Rattle.path_expunge.specs.Forms.{what};
ghost use Rattle.expunge_laws.specs.Matching.{matcher_of};
ghost use Rattle.expunge_laws.specs.Matching.Matches.{only};

use byte_patterns::{Pattern, Patterns};
use plain_model::{Halt, Path};
use std::alloc::Global;
use std::marker::Model;

/// Of what form a matcher is.
#[derive(Drop)]
pub enum Form {
    Only(Path),
    Found(Pattern),
}

/// One path, or a pattern that is looked for in paths. Contracts see what it matches. (reposurgeon manual, `expunge`.)
#[derive(Drop)]
pub struct Matcher {
    form: Form,
}

impl Model for Matcher {
    ghost use Rattle.expunge_laws.specs.Matching.{Matches};
    ghost use Rattle.path_expunge.specs.Forms.{what};

    ghost Value = { Matches };

    ghost view = { λ m. what m.form };
}

impl Matcher {
    /// This path alone.
    pub fn literal(path: Path) -> Matcher
        ensures { result ≡ only path }
    {
        Matcher {
            form: Form::Only(path),
        }
    }

    /// Each path in which the pattern of a text is found, or the refusal of that pattern.
    pub fn pattern<P: Patterns>(
        alloc: Global,
        text: &str,
        patterns: &mut P,
    ) -> Result<Matcher, Halt>
        ensures judged { Judges (λ matcher. matcher) (P.sizes patterns.old) (P.sizes patterns.new)
            result (matcher_of text.now) }
        ensures grows { P.sizes patterns.old ≤ P.sizes patterns.new }
    {
        match Pattern::of(alloc, text, patterns) {
            Ok(pattern) => Ok(Matcher {
                form: Form::Found(pattern),
            }),
            Err(halt) => Err(halt),
        }
    }

    /// Of what form it is.
    pub(crate) fn form(&self) -> &Form
        ensures { what result.now ≡ self.now }
    {
        &self.form
    }
}
