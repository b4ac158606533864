//! The commits of a history by the seconds of their committers.
ghost use Rattle.std.specs.Prelude.{◌≡◌, ◌∷◌, ◌++◌, [], option_map, IfOk, OnOk};
ghost use Rattle.graft_unite.specs.Dates.{AreDatesOf, latest_in, with_commit};

use plain_model::{CommitId, NoMemory, PlainEvent};
use std::alloc::Global;
use std::collections::BTreeMap;
use std::marker::Model;

/// For each second the last commit of that second.
#[derive(Drop)]
pub struct Dates {
    by_second: BTreeMap<u64, u64>,
}

impl Model for Dates {
    ghost use Rattle.std.specs.Prelude.{List, ℕ};

    ghost Value = { List (ℕ × ℕ) };

    ghost view = { λ d. d.by_second.entries };
}

impl Dates {
    /// No commits yet.
    pub fn new(alloc: Global) -> Dates
        ensures { result ≡ [] }
    {
        Dates {
            by_second: BTreeMap::new(alloc),
        }
    }

    /// The latest commit before a second, and of those of its second the last.
    pub fn latest(&self, seconds: u64) -> Option<CommitId>
        ensures { result ≡ option_map (λ e. e.1) (latest_in self.now seconds) }
    {
        let (_, number) = self.by_second.range(..seconds).next_back()?;
        Some(CommitId::new(*number))
    }

    // Puts a commit under its second, in the place of an earlier one.
    fn add(&mut self, second: u64, id: CommitId) -> Result<(), NoMemory>
        ensures { OnOk result
            ((seconds : _) → latest_in self.new seconds ≡ with_commit self.old second id seconds) }
    {
        let _ = self.by_second.insert(second, id.number())?;
        Ok(())
    }

    /// Puts an event among them, if it is a commit.
    pub fn note(&mut self, event: &PlainEvent) -> Result<(), NoMemory>
        ensures { OnOk result ((earlier : _) → AreDatesOf earlier self.old
            → AreDatesOf (earlier ++ event.now ∷ []) self.new) }
    {
        match event {
            PlainEvent::Commit { id, committer, .. } => self.add(committer.when.seconds, *id),
            _ => Ok(()),
        }
    }
}
