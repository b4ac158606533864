//! Marks.
ghost use Rattle.std.specs.Prelude.{◌≡◌, ◌↔◌, IsSome, IfSome};
ghost use Rattle.plain_model.specs.Marks.{IsMark, as_mark};

use crate::limit::MAX_MARK;
use crate::list::{Copied, NoMemory};
use std::alloc::Global;
use std::marker::Model;

/// The number after the colon of a `mark :N` line, by which later lines of a stream name a blob or a
/// commit: 1 to 4,294,967,295. (git-fast-import, `mark`.)
#[derive(Clone, Copy, Debug, PartialEq, Eq, PartialOrd, Ord)]
pub struct Mark {
    number: u64,
}

impl Model for Mark {
    ghost use Rattle.std.specs.Prelude.{ℕ};
    ghost use Rattle.plain_model.specs.Marks.{IsMark};

    ghost Value = { ℕ };

    ghost view = { λ m. m.number };

    ghost invariant = { λ m. IsMark m.number };

    ghost inverse = { λ n. record { number = n } };
}

impl Mark {
    /// `None` exactly where the number is no mark.
    pub fn new(number: u64) -> Option<Mark>
        ensures fits { IsSome result ↔ IsMark number }
        ensures value { IfSome result (λ mark. mark ≡ number) }
        ensures exact { result ≡ as_mark number }
    {
        if number >= 1 && number <= MAX_MARK {
            Some(Mark { number })
        } else {
            None
        }
    }

    pub fn number(&self) -> u64
        ensures value { result ≡ self.now }
        ensures fits { IsMark result }
    {
        self.number
    }
}

impl Copied for Mark {
    fn copied(&self, _alloc: Global) -> Result<Mark, NoMemory> {
        Ok(*self)
    }
}
