//! Which paths some matchers match.
ghost use Rattle.std.specs.Prelude.{◌≡◌, IfOk, map};
ghost use Rattle.expunge_laws.specs.Matching.{matched_by, matches};
ghost use Rattle.path_expunge.specs.Tests.{sought};

use crate::matcher::{Form, Matcher};
use byte_patterns::Searcher;
use plain_model::{NoMemory, Path};
use std::alloc::Global;
use std::marker::Model;

/// A matcher that is ready to look at paths.
#[derive(Drop)]
pub enum PathTest<'m> {
    Only(&'m Path),
    Found(Searcher<'m>),
}

// A matcher, made ready.
fn ready<'m>(alloc: Global, matcher: &'m Matcher) -> Result<PathTest<'m>, NoMemory>
    ensures { IfOk result (λ test. sought test ≡ matcher.now) }
{
    match matcher.form() {
        Form::Only(path) => Ok(PathTest::Only(path)),
        Form::Found(pattern) => Ok(PathTest::Found(pattern.searcher(alloc)?)),
    }
}

// Whether one of them matches a path.
fn matches(test: &mut PathTest<'_>, path: &[u8]) -> bool
    ensures matched { result ≡ matches (sought test.old) path.now }
    ensures same { sought test.new ≡ sought test.old }
{
    match test {
        PathTest::Only(only) => only.as_bytes() == path,
        PathTest::Found(searcher) => searcher.finds(path),
    }
}

impl Matcher {
    /// Whether it matches a path. An expunge makes the search for a pattern once, for all paths. (reposurgeon manual, `expunge`.)
    pub fn matches(&self, alloc: Global, path: &Path) -> Result<bool, NoMemory>
        ensures { IfOk result (λ answer. answer ≡ matches self.now path.now) }
    {
        let mut test = ready(alloc, self)?;
        Ok(matches(&mut test, path.as_bytes()))
    }
}

/// Matchers, with a search for each pattern that is made once. Contracts see what they match.
#[derive(Drop)]
pub struct Matching<'m> {
    tests: Vec<PathTest<'m>>,
}

impl<'m> Model for Matching<'m> {
    ghost use Rattle.std.specs.Prelude.{List, map};
    ghost use Rattle.expunge_laws.specs.Matching.{Matches};
    ghost use Rattle.path_expunge.specs.Tests.{sought};

    ghost Value = { List Matches };

    ghost view = { λ m. map sought m.tests.items };
}

impl<'m> Matching<'m> {
    pub fn new(alloc: Global, matchers: &'m [Matcher]) -> Result<Matching<'m>, NoMemory>
        ensures { IfOk result (λ made. made ≡ matchers.now) }
    {
        let mut tests = Vec::with_capacity(alloc, matchers.len())?;
        for matcher in matchers {
            tests.push(ready(alloc, matcher)?)?;
        }
        Ok(Matching { tests })
    }

    /// Whether some matcher matches the path.
    pub fn matches(&mut self, path: &[u8]) -> bool
        ensures matched { result ≡ matched_by self.old path.now }
        ensures same { self.new ≡ self.old }
    {
        for place in 0..self.tests.len() {
            if matches(&mut self.tests[place], path) {
                return true;
            }
        }
        false
    }
}
