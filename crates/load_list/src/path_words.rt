//! Words that say paths.
ghost use Rattle.std.specs.Prelude.{◌≡◌, ◌≤◌};
ghost use Rattle.std.specs.Option.{option_copied};
ghost use Rattle.byte_patterns.specs.Judging.{Judges};
ghost use Rattle.history_machine.specs.PathWords.{between_slashes, matches_by, matches_of, said_path};
ghost use Rattle.plain_model.specs.Faults.{Returns};

use byte_patterns::Patterns;
use path_expunge::Matcher;
use plain_model::{Fault, Halt, Items, Path, PathFault};
use script_lines::ScriptText;
use std::alloc::Global;

/// The path that a word says.
pub fn path_of(alloc: Global, text: &[u8]) -> Result<Path, Halt>
    ensures { Returns (λ path. path) result (said_path text.now) }
{
    match Path::new(alloc, text) {
        Ok(path) => Ok(path),
        Err(PathFault::Memory) => Err(Halt::Memory),
        Err(_) => Err(Halt::Refused(Fault::NoSuchPath {
            path: Items::of(alloc, text)?,
        })),
    }
}

// What is between two slashes, with which a word begins and ends.
fn between_slashes(word: &str) -> Option<&str>
    ensures { option_copied result ≡ between_slashes word.now }
{
    match word.strip_prefix('/') {
        Some(rest) => rest.strip_suffix('/'),
        None => None,
    }
}

// What a word matches: a pattern, or one path.
fn matcher_of<P: Patterns>(alloc: Global, word: &str, patterns: &mut P) -> Result<Matcher, Halt>
    ensures judged { Judges (λ matcher. matcher) (P.sizes patterns.old) (P.sizes patterns.new) result
        (matches_by word.now (between_slashes word.now)) }
    ensures grows { P.sizes patterns.old ≤ P.sizes patterns.new }
{
    match between_slashes(word) {
        Some(text) => Matcher::pattern(alloc, text, patterns),
        None => {
            let path = path_of(alloc, word.as_bytes())?;
            Ok(Matcher::literal(path))
        }
    }
}

/// What words match, judged from left to right.
pub fn matchers_of<P: Patterns>(
    alloc: Global,
    words: &[ScriptText],
    patterns: &mut P,
) -> Result<Items<Matcher>, Halt>
    ensures judged { Judges (λ matchers. matchers) (P.sizes patterns.old)
        (P.sizes patterns.new) result (matches_of words.now) }
    ensures grows { P.sizes patterns.old ≤ P.sizes patterns.new }
{
    let mut matchers = Items::new(alloc)?;
    for word in words {
        let matcher = matcher_of(alloc, word.as_str(), patterns)?;
        matchers.push(matcher)?;
    }
    Ok(matchers)
}
