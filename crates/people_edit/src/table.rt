//! Who is put in the place of whom.
ghost use Rattle.std.specs.Prelude.{◌≡◌, [], option_map, OnOk};
ghost use Rattle.people_edit.specs.Tables.{said_for, with_author};

use indexmap::IndexMap;
use plain_model::{NoMemory, Person, Shared};
use std::alloc::Global;
use std::marker::Model;

/// Persons by the emails in the place of which they are put, in the order in which the emails came. The emails are where the file
/// has them.
#[derive(Drop)]
pub struct AuthorTable<'a> {
    by_key: IndexMap<&'a [u8], Shared<Person>>,
}

impl<'a> Model for AuthorTable<'a> {
    ghost use Rattle.std.specs.Prelude.{List};
    ghost use Rattle.people_laws.specs.Authors.{Author};
    ghost use Rattle.people_edit.specs.Tables.{authors_at};

    ghost Value = { List Author };

    ghost view = { λ t. authors_at t.by_key.entries };
}

impl<'a> AuthorTable<'a> {
    /// No one.
    pub fn new(alloc: Global) -> AuthorTable<'a>
        ensures { result ≡ [] }
    {
        AuthorTable {
            by_key: IndexMap::new(alloc),
        }
    }

    /// Puts a person in the place of an email, and no longer who was put there.
    pub fn put(&mut self, key: &'a [u8], person: Shared<Person>) -> Result<(), NoMemory>
        ensures { OnOk result (self.new ≡ with_author key.entry.now person self.old) }
    {
        let _ = self.by_key.insert(key, person)?;
        Ok(())
    }

    /// The person in the place of an email.
    pub fn person_for(&self, email: &[u8]) -> Option<&Shared<Person>>
        ensures { option_map (λ person. person.now) result ≡ said_for self.now email.now }
    {
        match self.by_key.get(email) {
            Some(person) => Some(person),
            None => None,
        }
    }
}
