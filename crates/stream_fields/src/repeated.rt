//! Values of fields that come again and again in a stream: each is kept once, and has many owners.
ghost use Rattle.std.specs.Prelude.{◌≡◌, Some, true, IfOk, IfSome, IsTrue};
ghost use Rattle.plain_model.specs.Names.{is_name};
ghost use Rattle.plain_model.specs.Parts.{person_parts};
ghost use Rattle.stream_fields.specs.Spellings.{Spells};

use crate::lines::strip;
use plain_model::{Items, NoMemory, Person, Shared, Text};
use std::alloc::Global;
use std::collections::HashMap;
use std::marker::Model;

/// The names of branches so far.
#[derive(Drop)]
pub struct Names {
    kept: HashMap<Vec<u8>, Shared<Text>>,
    // The one that was spelled last, which mostly comes next, too.
    last: Option<Shared<Text>>,
    branch: LastBranch,
}

/// The branch that was read last. It is a name, so that it needn't be looked at again.
#[derive(Drop)]
struct LastBranch {
    name: Option<Shared<Text>>,
}

impl Model for LastBranch {
    ghost use Rattle.std.specs.Prelude.{IfSome, IsTrue};
    ghost use Rattle.plain_model.specs.Names.{is_name};

    ghost Value = { Unit {0} };

    ghost view = { λ _. tt };

    ghost invariant = { λ b. IfSome b.name (λ name. IsTrue (is_name name)) };
}

impl LastBranch {
    // The branch that was read last, where the text is the same.
    fn found(&self, text: &[u8]) -> Option<&Shared<Text>>
        ensures { IfSome result (λ name. (name.now ≡ text.now) × IsTrue (is_name text.now)) }
    {
        let Some(name) = &self.name else {
            return None;
        };
        if is_name(name, text) {
            Some(name)
        } else {
            None
        }
    }

    // The name is that of the branch that was read last.
    fn keep(&mut self, name: &Shared<Text>) -> Result<(), NoMemory>
        requires { IsTrue (is_name name.now) }
    {
        self.name = Some(name.share()?);
        Ok(())
    }
}

/// The people so far, by their names and emails as they were spelled.
#[derive(Drop)]
pub struct People {
    kept: HashMap<Vec<u8>, Shared<Person>>,
    // Whoever was spelled last, who mostly comes next, too.
    last: Option<Shared<Person>>,
    last_read: LastPerson,
}

/// Whoever was read last, and how: the text up to the end of the email.
#[derive(Drop)]
struct LastPerson {
    front: Text,
    person: Option<Shared<Person>>,
}

impl Model for LastPerson {
    ghost use Rattle.std.specs.Prelude.{IfSome};
    ghost use Rattle.stream_fields.specs.Spellings.{Spells};

    ghost Value = { Unit {0} };

    ghost view = { λ _. tt };

    ghost invariant = { λ s. IfSome s.person (Spells s.front) };
}

impl LastPerson {
    // Nobody yet.
    fn new(alloc: Global) -> LastPerson {
        LastPerson {
            front: Items::empty(alloc),
            person: None,
        }
    }

    // Whoever was read last, and what is after the email, where the text begins with both as the last one did.
    fn found<'a>(&self, text: &'a [u8]) -> Option<(&Shared<Person>, &'a [u8])>
        ensures { IfSome result
            (λ x. person_parts text.now ≡ Some (x.0.now.name, x.0.now.email, x.1.now)) }
    {
        let Some(person) = &self.person else {
            return None;
        };
        let tail = strip(self.front.as_slice(), text)?;
        Some((person, tail))
    }

    // The person is whoever was read last.
    fn keep(&mut self, front: &[u8], person: &Shared<Person>) -> Result<(), NoMemory>
        requires { Spells front.now person.now }
    {
        self.person = None;
        self.front.truncate(0);
        self.front.push_all(front)?;
        self.person = Some(person.share()?);
        Ok(())
    }
}

// What is kept is looked at again where it is found, so that nothing has to be known of the maps.
fn is_name(kept: &Shared<Text>, name: &[u8]) -> bool
    ensures { result ≡ true → kept.now ≡ name.now }
{
    kept.as_slice() == name
}

fn is_person(kept: &Person, name: &[u8], email: &[u8]) -> bool
    ensures { result ≡ true → kept.now ≡ record { name = name.now; email = email.now } }
{
    kept.name.as_slice() == name && kept.email.as_slice() == email
}

impl Names {
    /// No names yet.
    pub fn new(alloc: Global) -> Names {
        Names {
            kept: HashMap::new(alloc),
            last: None,
            branch: LastBranch { name: None },
        }
    }

    fn found(&self, name: &[u8]) -> Option<&Shared<Text>>
        ensures { IfSome result (λ found. found.now ≡ name.now) }
    {
        let found = self.kept.get(name)?;
        if is_name(found, name) {
            Some(found)
        } else {
            None
        }
    }

    // The name that is kept, or a new one that is kept from now on.
    fn kept_or_made(&mut self, alloc: Global, name: &[u8]) -> Result<Shared<Text>, NoMemory>
        ensures { IfOk result (λ made. made ≡ name.now) }
    {
        if let Some(found) = self.found(name) {
            return found.share();
        }
        let made = Shared::new(alloc, Items::of(alloc, name)?)?;
        let key = Vec::from_slice(alloc, name)?;
        self.kept.insert(key, made.share()?)?;
        Ok(made)
    }

    /// The name: the one that is kept, or a new one that is kept from now on.
    pub fn shared(&mut self, alloc: Global, name: &[u8]) -> Result<Shared<Text>, NoMemory>
        ensures { IfOk result (λ made. made ≡ name.now) }
    {
        if let Some(last) = &self.last {
            if is_name(last, name) {
                return last.share();
            }
        }
        let made = self.kept_or_made(alloc, name)?;
        self.last = Some(made.share()?);
        Ok(made)
    }
}

impl Names {
    /// The branch that was read last, where the text is the same.
    pub(crate) fn last_branch(&self, text: &[u8]) -> Option<&Shared<Text>>
        ensures { IfSome result (λ name. (name.now ≡ text.now) × IsTrue (is_name text.now)) }
    {
        self.branch.found(text)
    }

    /// The name is that of the branch that was read last.
    pub(crate) fn keep_branch(&mut self, name: &Shared<Text>) -> Result<(), NoMemory>
        requires { IsTrue (is_name name.now) }
    {
        self.branch.keep(name)
    }
}

impl People {
    /// Nobody yet.
    pub fn new(alloc: Global) -> People {
        People {
            kept: HashMap::new(alloc),
            last: None,
            last_read: LastPerson::new(alloc),
        }
    }

    fn found(&self, spelled: &[u8], name: &[u8], email: &[u8]) -> Option<&Shared<Person>>
        ensures { IfSome result (λ found. found.now ≡ record { name = name.now; email = email.now }) }
    {
        let found = self.kept.get(spelled)?;
        if is_person(found.as_ref(), name, email) {
            Some(found)
        } else {
            None
        }
    }

    // Whoever is kept, or a new one who is kept from now on.
    fn kept_or_made(
        &mut self,
        alloc: Global,
        spelled: &[u8],
        name: &[u8],
        email: &[u8],
    ) -> Result<Shared<Person>, NoMemory>
        ensures { IfOk result (λ made. made ≡ record { name = name.now; email = email.now }) }
    {
        if let Some(found) = self.found(spelled, name, email) {
            return found.share();
        }
        let person = Person {
            name: Items::of(alloc, name)?,
            email: Items::of(alloc, email)?,
        };
        let made = Shared::new(alloc, person)?;
        let key = Vec::from_slice(alloc, spelled)?;
        self.kept.insert(key, made.share()?)?;
        Ok(made)
    }

    /// The person with this name and this email, who are spelled so: whoever is kept, or a new one who is kept from now on.
    pub fn shared(
        &mut self,
        alloc: Global,
        spelled: &[u8],
        name: &[u8],
        email: &[u8],
    ) -> Result<Shared<Person>, NoMemory>
        ensures { IfOk result (λ made. made ≡ record { name = name.now; email = email.now }) }
    {
        if let Some(last) = &self.last {
            if is_person(last.as_ref(), name, email) {
                return last.share();
            }
        }
        let made = self.kept_or_made(alloc, spelled, name, email)?;
        self.last = Some(made.share()?);
        Ok(made)
    }

    /// Whoever was read last, and what is after the email, where the text begins with both as the last one did.
    pub(crate) fn spelled<'a>(&self, text: &'a [u8]) -> Option<(&Shared<Person>, &'a [u8])>
        ensures { IfSome result
            (λ x. person_parts text.now ≡ Some (x.0.now.name, x.0.now.email, x.1.now)) }
    {
        self.last_read.found(text)
    }

    /// The person was read last, from this text up to the end of the email.
    pub(crate) fn keep_spelled(
        &mut self,
        front: &[u8],
        person: &Shared<Person>,
    ) -> Result<(), NoMemory>
        requires { Spells front.now person.now }
    {
        self.last_read.keep(front, person)
    }
}
