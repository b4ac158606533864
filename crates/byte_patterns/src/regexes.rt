//! The patterns of the crate `regex`.
ghost use Rattle.std.specs.Prelude.{◌≡◌, ◌≤◌};
ghost use Rattle.plain_model.specs.Counts.{Rose};

use crate::building::{BuildFault, Patterns};
use regex::Error;
use regex::bytes::Regex;
use std::alloc::Global;

/// Hands on what `regex` answers, and counts the sizes that it refuses.
#[derive(Drop)]
pub struct RegexPatterns {
    alloc: Global,
    failing: u64,
    calls: u64,
    sizes: u64,
}

impl RegexPatterns {
    /// For tests the call of the number `failing`, counted from 1, is one at which a size is refused; 0 names no call.
    pub fn new(alloc: Global, failing: u64) -> RegexPatterns {
        RegexPatterns {
            alloc,
            failing,
            calls: 0,
            sizes: 0,
        }
    }

    fn refuse(&mut self) -> BuildFault
        ensures which { result ≡ BuildFault.TooBig }
        ensures rose { Rose self.old.sizes self.new.sizes }
        ensures later { self.old.sizes ≤ self.new.sizes }
    {
        self.sizes = self.sizes.saturating_add(1);
        BuildFault::TooBig
    }
}

impl Patterns for RegexPatterns {
    ghost sizes = { λ s. s.sizes };

    fn build(&mut self, text: &str) -> Result<Regex, BuildFault> {
        self.calls = self.calls.saturating_add(1);
        if self.calls == self.failing {
            return Err(self.refuse());
        }
        match Regex::new(self.alloc, text) {
            Ok(regex) => Ok(regex),
            Err(Error::Syntax(_)) => Err(BuildFault::NoPattern),
            Err(Error::OutOfMemory) => Err(BuildFault::Memory),
            Err(_) => Err(self.refuse()),
        }
    }
}
