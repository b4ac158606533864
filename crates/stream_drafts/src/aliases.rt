//! Aliases: further marks of commits. (git-fast-import, `alias`.)
ghost use Rattle.std.specs.Prelude.{◌≡◌, ◌==◌, ◌∷◌, ◌++◌, [], length, OnErr, OnOk};
ghost use Rattle.std.specs.Map.{lookup};
ghost use Rattle.plain_model.specs.Marks.{IsMark};
ghost use Rattle.plain_model.specs.Streams.{is_among};
ghost use Rattle.stream_grammar.specs.Known.{alias_marks};

use crate::index::{make_commit_room, note_commit_mark};
use plain_model::{CommitId, Mark, NoMemory};
use std::alloc::Global;
use std::collections::HashMap;
use std::marker::Model;

/// The aliases so far, each with the commit that it names, in the order in which they came.
#[derive(Drop)]
pub struct Aliases {
    list: Vec<(Mark, CommitId)>,
    commits: HashMap<u64, CommitId>,
}

impl Model for Aliases {
    ghost use Rattle.std.specs.Prelude.{ℕ, List, nat_eq};
    ghost use Rattle.std.specs.HashMap.{get};
    ghost use Rattle.stream_drafts.specs.Aliased.{IsIndex};

    ghost Value = { List (ℕ × ℕ) };

    ghost view = { λ a. a.list.items };

    ghost invariant = { λ a. IsIndex a.list.items (get nat_eq a.commits) };
}

impl Aliases {
    /// No aliases.
    pub fn new(alloc: Global) -> Aliases
        ensures { result ≡ [] }
    {
        Aliases {
            list: Vec::new(alloc),
            commits: HashMap::new(alloc),
        }
    }

    /// How many there are.
    pub fn count(&self) -> u64
        ensures { result ≡ length self.now }
    {
        self.list.len() as u64
    }

    /// Whether the mark is one of them.
    pub fn is_alias(&self, mark: Mark) -> bool
        ensures { result ≡ is_among (alias_marks self.now) mark }
    {
        self.commit_with(mark).is_some()
    }

    /// The commit that the mark names as an alias.
    pub fn commit_with(&self, mark: Mark) -> Option<CommitId>
        ensures { result ≡ lookup (λ a. a == mark) self.now }
    {
        // Mostly there are none.
        if self.list.is_empty() {
            return None;
        }
        self.commits.get(&mark.number()).copied()
    }

    /// Puts an alias at the end.
    pub fn push(&mut self, mark: Mark, commit: CommitId) -> Result<(), NoMemory>
        ensures ok { OnOk result (self.new ≡ self.old ++ (mark, commit) ∷ []) }
        ensures err { OnErr result (self.new ≡ self.old) }
        ensures fits { OnOk result (IsMark mark) }
    {
        self.list.reserve(1)?;
        make_commit_room(&mut self.commits)?;
        note_commit_mark(&mut self.commits, mark, commit);
        let pushed: Result<_, _> = self.list.push((mark, commit));
        pushed.unwrap();
        Ok(())
    }

    /// All of them.
    pub fn into_list(self) -> Vec<(Mark, CommitId)>
        ensures { result.items ≡ self }
    {
        self.list
    }
}
