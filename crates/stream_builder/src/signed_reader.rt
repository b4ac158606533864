//! Who did something, and when, which is mostly spelled as before.
ghost use Rattle.plain_model.specs.Fields.{person_in};
ghost use Rattle.stream_fields.specs.Answers.{Gives};

use plain_model::{Copied, Items, Signed, Text};
use std::alloc::Global;
use std::marker::Model;
use stream_fields::{FieldFault, People, read_person};

/// Reads who and when. A committer is mostly spelled as the author in the line before, and isn't read again then.
#[derive(Drop)]
pub struct SignedReader {
    people: People,
    text: Text,
    // Who and when the text says, where it was read.
    who: Option<Signed>,
}

impl Model for SignedReader {
    ghost use Rattle.std.specs.Prelude.{◌≡◌, IfSome, Ok};
    ghost use Rattle.plain_model.specs.Fields.{person_in};

    ghost Value = { Unit {0} };

    ghost view = { λ _. tt };

    ghost invariant = { λ r. IfSome r.who (λ who. person_in r.text ≡ Ok who) };
}

impl SignedReader {
    /// Nothing was read yet.
    pub fn new(alloc: Global) -> SignedReader {
        SignedReader {
            people: People::new(alloc),
            text: Items::empty(alloc),
            who: None,
        }
    }

    /// Who and when. (git-fast-import, `committer`.)
    pub fn read(&mut self, alloc: Global, text: &[u8]) -> Result<Signed, FieldFault>
        ensures { Gives (λ who. who) result (person_in text.now) }
    {
        if let Some(who) = &self.who {
            if self.text.as_slice() == text {
                return Ok(who.copied(alloc)?);
            }
        }
        let who = read_person(alloc, &mut self.people, text)?;
        self.who = None;
        self.text.truncate(0);
        self.text.push_all(text)?;
        self.who = Some(who.copied(alloc)?);
        Ok(who)
    }
}
