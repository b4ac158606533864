//! Several repositories become one.
ghost use Rattle.std.specs.Prelude.{◌≡◌, ◌≤◌, ◌++◌, ◌∷◌, [], None, Ok, Some, is_some, length, IfOk, OnErr, OnOk};
ghost use Rattle.std.specs.List.{AllByRecursion};
ghost use Rattle.graft_laws.specs.Joined.{AreNameBytes};
ghost use Rattle.history_machine.specs.Sessions.{find_repo};
ghost use Rattle.history_machine.specs.Several.{after_uniting, joined_name, united_of, without_repos};
ghost use Rattle.plain_model.specs.Faults.{Returns};
ghost use Rattle.load_list.specs.Entries.{repo_under};
ghost use Rattle.load_list.specs.Lists.{
  Changes,
  IsLongerThanEach,
  free_name,
  part_there,
  parts_there,
  united_as,
  united_in,
};

use super::LoadList;
use crate::faults::{not_there, taken};
use crate::repository::Repository;
use graft_laws::a_unite_is_lawful;
use graft_unite::{Part, unite};
use plain_model::{Halt, Items, NoMemory, Text};
use script_lines::ScriptText;
use std::alloc::Global;

// The names with `+` between them.
fn joined(alloc: Global, names: &[ScriptText]) -> Result<Text, NoMemory>
    ensures { IfOk result (λ text. text ≡ joined_name names.now) }
{
    let mut text = Items::empty(alloc);
    let [first, others @ ..] = names else {
        return Ok(text);
    };
    text.push_all(first.as_bytes())?;
    for name in others {
        text.push(b'+')?;
        text.push_all(name.as_bytes())?;
    }
    Ok(text)
}

impl LoadList {
    // The repository of a name as a part.
    fn part<'a>(&'a self, name: &'a [u8]) -> Result<Part<'a>, Halt>
        ensures part { Returns (λ part. part) result (part_there name.now self.now.repos) }
        ensures named { IfOk result (λ part. AreNameBytes part.name) }
    {
        match self.by_name.get(name) {
            Some(found) => Ok(Part::new(name, found.events())),
            None => Err(Halt::Refused(not_there(self.alloc, name)?)),
        }
    }

    // The repositories of these names as parts, in their order.
    fn parts<'a>(&'a self, names: &'a [ScriptText]) -> Result<Items<Part<'a>>, Halt>
        ensures parts { Returns (λ parts. parts) result (parts_there names.now self.now.repos) }
        ensures named { IfOk result
            (λ parts. AllByRecursion (λ part. AreNameBytes part.name) parts) }
    {
        let mut parts = Items::empty(self.alloc);
        for name in names {
            let part = self.part(name.as_bytes())?;
            parts.push(part)?;
        }
        Ok(parts)
    }

    // Whether a repository has these names joined as its own, and isn't one of theirs, as that of one name alone is.
    fn is_taken(&self, names: &[ScriptText], joined: &[u8]) -> bool
        requires { joined.now ≡ joined_name names.now }
        ensures { result ≡ is_some (find_repo joined.now (without_repos names.now self.now.repos)) }
    {
        let is_there = self.by_name.get_index_of(joined).is_some();
        is_there && names.len() != 1
    }

    // These names joined, if no other repository has that name.
    fn free_name(&self, names: &[ScriptText]) -> Result<Text, Halt>
        ensures { Returns (λ text. text) result (free_name names.now self.now.repos) }
    {
        let text = joined(self.alloc, names)?;
        if self.is_taken(names, text.as_slice()) {
            return Err(Halt::Refused(taken(self.alloc, text.as_slice())?));
        }
        Ok(text)
    }

    // One repository of these parts, which are those of these names.
    fn united_parts(
        &self,
        names: &[ScriptText],
        parts: &[Part],
        prune: bool,
    ) -> Result<Repository, Halt>
        requires parts { parts_there names.now self.now.repos ≡ Ok parts.now }
        requires named { AllByRecursion (λ part. AreNameBytes part.name) parts.now }
        ensures united { (name : _) → Returns (λ made. repo_under name made) result
            (united_as prune name names.now self.now.repos) }
        ensures several { OnOk result (2 ≤ length names.now) }
    {
        a_unite_is_lawful();
        let united = unite(self.alloc, parts, prune)?;
        let oldest = self.by_name.get(names[united.base].as_bytes()).unwrap();
        let lists = oldest.live_names()?;
        Ok(Repository::with_names(self.alloc, united.events, lists)?)
    }

    // One repository of those of these names, after its name.
    fn united(&self, names: &[ScriptText], prune: bool) -> Result<(Text, Repository), Halt>
        ensures united { Returns (λ made. repo_under made.0 made.1) result
            (united_in prune names.now self.now.repos) }
        ensures free { IfOk result (λ made. find_repo made.0 self.now.repos ≡ None) }
        ensures longer { IfOk result (λ made. IsLongerThanEach names.now made.0) }
        ensures bytes { IfOk result (λ made. AreNameBytes made.0) }
    {
        let parts = self.parts(names)?;
        let name = self.free_name(names)?;
        let made = self.united_parts(names, parts.as_slice(), prune)?;
        Ok((name, made))
    }

    // Loads a repository under a name that none has, after the others.
    fn load(&mut self, name: &[u8], made: Repository) -> Result<(), NoMemory>
        requires free { find_repo name.now self.old.repos ≡ None }
        requires bytes { AreNameBytes name.now }
        ensures ok { OnOk result (self.new ≡ record self.old {
          repos = self.old.repos ++ repo_under name.now made ∷ [];
        }) }
        ensures err { OnErr result (self.new ≡ self.old) }
    {
        let name = Vec::from_slice(self.alloc, name)?;
        let _ = self.by_name.insert(name, made)?;
        Ok(())
    }

    // Takes those of these names out, whether they are chosen or not. The others keep their order.
    fn remove_all(&mut self, names: &[ScriptText])
        ensures { self.new ≡ record self.old { repos = without_repos names.now self.old.repos } }
    {
        for name in names {
            self.remove(name.as_bytes());
        }
    }

    // Loads a repository under a name that none has, in the place of those of these names, which are shorter, and chooses it.
    fn replace(
        &mut self,
        names: &[ScriptText],
        name: Text,
        made: Repository,
    ) -> Result<(), NoMemory>
        requires free { find_repo name self.old.repos ≡ None }
        requires longer { IsLongerThanEach names.now name }
        requires bytes { AreNameBytes name }
        ensures ok { OnOk result (self.new ≡ record {
          repos = without_repos names.now self.old.repos ++ repo_under name made ∷ [];
          choice = Some name;
        }) }
        ensures err { OnErr result (self.new ≡ self.old) }
    {
        self.load(name.as_slice(), made)?;
        self.remove_all(names);
        self.choice = Some(name);
        Ok(())
    }

    /// Makes one repository of those of these names, loads it last under their names joined by `+`, and chooses it. They leave the list
    /// only after its history and all memory for it are there.
    pub fn unite(&mut self, names: &[ScriptText], prune: bool) -> Result<(), Halt>
        ensures changes { Changes (λ s. after_uniting s names.now (united_of prune)) self.old result
            self.new }
        ensures kept { OnErr result (self.new ≡ self.old) }
    {
        let (name, made) = self.united(names, prune)?;
        Ok(self.replace(names, name, made)?)
    }
}
