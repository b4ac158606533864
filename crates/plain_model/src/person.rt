//! People and dates.
ghost use Rattle.std.specs.Prelude.{◌≡◌, IfOk};

use crate::list::{Copied, NoMemory, Text};
use crate::shared::Shared;
use std::alloc::Global;

/// A name, which may be empty, and an email. Neither holds `<`, `>` or NUL. (git-fast-import, `committer`.)
#[derive(Drop)]
pub struct Person {
    pub name: Text,
    pub email: Text,
}

/// A moment in raw format: seconds since 1970, 0 to 250,000,000,000 (own), and the sign and four digits of a
/// zone, which are kept as they are spelled and not judged. (git-fast-import, `raw` dates.)
#[derive(Clone, Copy, Debug, PartialEq, Eq)]
pub struct When {
    pub seconds: u64,
    /// The sign is `-`.
    pub minus: bool,
    /// The four digits as a number, 0 to 9999.
    pub offset: u16,
}

/// Who did something, and when.
#[derive(Drop)]
pub struct Signed {
    pub person: Shared<Person>,
    pub when: When,
}

impl Copied for Person {
    fn copied(&self, alloc: Global) -> Result<Person, NoMemory> {
        Ok(Person {
            name: self.name.copied(alloc)?,
            email: self.email.copied(alloc)?,
        })
    }
}

impl Copied for Signed {
    fn copied(&self, alloc: Global) -> Result<Signed, NoMemory> {
        Ok(Signed {
            person: self.person.copied(alloc)?,
            when: self.when,
        })
    }
}
