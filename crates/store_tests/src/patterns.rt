//! Patterns that are refused for their size, which `regex` does of no short one.
use byte_patterns::{BuildFault, Pattern, Patterns, RegexPatterns};
use path_expunge::Matcher;
use plain_model::{Fault, Halt, Items, Path, Status};
use regex::bytes::Regex;
use std::alloc::Global;
use std::test::*;
use surgeon_cli::surgeon;
use surgeon_store::{FileEntry, SureSink, SureStore};

// Builds nothing: each text is refused for its size.
#[derive(Drop)]
struct Narrow {
    refused: u64,
}

impl Patterns for Narrow {
    ghost sizes = { λ s. s.refused };

    fn build(&mut self, _text: &str) -> Result<Regex, BuildFault> {
        self.refused = self.refused.saturating_add(1);
        Err(BuildFault::TooBig)
    }
}

// What a text is as a pattern, in a word.
fn answer<P: Patterns>(alloc: Global, text: &str, patterns: &mut P) -> &'static str {
    match Pattern::of(alloc, text, patterns) {
        Ok(_) => "a pattern",
        Err(Halt::Refused(Fault::PatternTooBig { .. })) => "too big",
        Err(_) => "another end",
    }
}

// A brace is looked for before anything is built.
#[test]
fn another_may_refuse_every_size(rt: HostRuntime) {
    let mut patterns = Narrow { refused: 0 };
    assert_eq!(rt; answer(rt.alloc(), "(", &mut patterns), "too big");
    assert_eq!(rt; answer(rt.alloc(), "{", &mut patterns), "too big");
    assert_eq!(rt; patterns.refused, 1);
}

#[test]
fn a_size_may_be_refused_once(rt: HostRuntime) {
    let mut patterns = RegexPatterns::new(rt.alloc(), 2);
    for want in ["a pattern", "too big", "a pattern"] {
        assert_eq!(rt; answer(rt.alloc(), "a.c", &mut patterns), want);
    }
}

// What a matcher says of a few paths; an expunge asks for many.
#[test]
fn a_matcher_says_which_paths_it_matches(rt: HostRuntime) -> Result<(), Fail> {
    let alloc = rt.alloc();
    let path = |bytes: &[u8]| Path::new(alloc, bytes);
    let mut patterns = RegexPatterns::new(alloc, 0);
    let only = Matcher::literal(path(b"a/b")?);
    let Ok(found) = Matcher::pattern(alloc, "^a/", &mut patterns) else {
        assert!(rt; false);
        return Ok(());
    };
    assert!(rt; only.matches(alloc, &path(b"a/b")?)?);
    assert!(rt; !only.matches(alloc, &path(b"a/bc")?)?);
    assert!(rt; found.matches(alloc, &path(b"a/bc")?)?);
    assert!(rt; !found.matches(alloc, &path(b"b/a/c")?)?);
    Ok(())
}

#[test]
fn a_pattern_of_a_run_may_be_refused_for_its_size(rt: HostRuntime) -> Result<(), Fail> {
    let alloc = rt.alloc();
    let mut words = Vec::new(alloc);
    for word in ["surgeon", "--keep-going", "s"] {
        words.push(String::from_str(alloc, word)?)?;
    }
    let mut files = Items::new(alloc)?;
    files.push(FileEntry {
        name: Items::of(alloc, b"s")?,
        bytes: Items::of(
            alloc,
            b"sample 1 0\n/t 1/ resolve\n/t 1/ resolve\n/t 1/ resolve\n",
        )?,
    })?;
    let mut store = SureStore::new(alloc, files)?;
    let mut out = SureSink::new(alloc)?;
    let mut patterns = RegexPatterns::new(alloc, 2);
    let status = surgeon(alloc, &words, &mut store, &mut out, &mut patterns);
    let printed: &[u8] = b"2\nsurgeon: line 3: refused 46 PatternTooBig pattern=t 1\n2\n";
    assert_eq!(rt; status, Status::Refused);
    assert!(rt; out.written().as_slice() == printed);
    Ok(())
}
