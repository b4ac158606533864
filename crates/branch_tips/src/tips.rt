//! The tips of branches.
ghost use Rattle.std.specs.Prelude.{◌≡◌, ◌∷◌, [], not, bytes_eq, IfOk, OnOk, OnErr, IsTrue};
ghost use Rattle.plain_model.specs.Snapshots.{refs_after};
ghost use Rattle.plain_model.specs.Trees.{at, has, put, where_path};
ghost use Rattle.branch_tips.specs.Entries.{tips_in, tips_with, is_among, AreInOrder};

use crate::last_tip::LastTip;
use plain_model::{CommitId, Items, NoMemory, PlainEvent, Text};
use std::alloc::Global;
use std::collections::BTreeMap;
use std::marker::Model;

/// Each branch that has a tip, with the commit on which it is. A commit and a reset with a target set
/// their branch; a reset without one removes it. (git-fast-import, `commit`, `reset`; where it is vague: own.)
#[derive(Drop)]
pub struct Tips {
    alloc: Global,
    // The last branch may have an older tip here.
    by_branch: BTreeMap<Vec<u8>, CommitId>,
    // Most commits go on with the branch of the one before, and to compare two names costs less than a look-up.
    last: LastTip,
    // The map has the last branch's tip, too: it was set but once.
    is_settled: bool,
}

/// Branches with commits.
pub type TipList = Items<(Text, CommitId)>;

impl Model for Tips {
    ghost use Rattle.std.specs.Prelude.{◌≡◌, List, ℕ, IsTrue};
    ghost use Rattle.branch_tips.specs.Entries.{tips_in, tips_with, is_among, AreInOrder};

    ghost Value = { List (List ℕ × ℕ) };

    ghost view = { λ t. tips_with t.last (tips_in t.by_branch.entries) };

    ghost invariant = { λ t. AreInOrder t.by_branch.entries × IsTrue (is_among t.last (tips_in t.by_branch.entries))
        × (IsTrue t.is_settled → tips_with t.last (tips_in t.by_branch.entries) ≡ tips_in t.by_branch.entries) };
}

impl Tips {
    /// No branch has a tip.
    pub fn new(alloc: Global) -> Tips
        ensures { result ≡ [] }
    {
        Tips {
            alloc,
            by_branch: BTreeMap::new(alloc),
            last: LastTip::none(alloc),
            is_settled: true,
        }
    }

    /// The commit on which the branch is.
    pub fn tip(&self, branch: &[u8]) -> Option<CommitId>
        ensures { result ≡ at self.now branch.now }
    {
        match self.last.tip_of(branch) {
            Some(tip) => Some(tip),
            None => self.by_branch.get(branch).copied(),
        }
    }

    /// Whether the branch has a tip.
    pub fn has(&self, branch: &[u8]) -> bool
        ensures { result ≡ has self.now branch.now }
    {
        self.tip(branch).is_some()
    }

    /// Each branch that has a tip, with the commit on which it is, in byte order of the branches.
    pub fn entries(&self) -> Result<TipList, NoMemory>
        ensures { IfOk result (λ list. list ≡ self.now) }
    {
        list_of(self.alloc, &self.by_branch, &self.last)
    }

    /// The branch is on the commit from now on. Only a branch without a tip needs memory.
    pub fn set(&mut self, branch: &[u8], tip: CommitId) -> Result<(), NoMemory>
        ensures ok { OnOk result (self.new ≡ put branch.now tip self.old) }
        ensures err { OnErr result (self.new ≡ self.old) }
    {
        if self.last.move_to(branch, tip) {
            self.is_settled = false;
            return Ok(());
        }
        self.last.settle(&mut self.by_branch, self.is_settled);
        self.is_settled = true;
        put_in(self.alloc, &mut self.by_branch, branch, tip)?;
        self.last.keep(branch, tip);
        Ok(())
    }

    /// The branch has no tip from now on.
    pub fn remove(&mut self, branch: &[u8])
        ensures { self.new ≡ where_path (λ other. not (bytes_eq branch.now other)) self.old }
    {
        self.last.settle(&mut self.by_branch, self.is_settled);
        self.is_settled = true;
        self.by_branch.remove(branch);
    }

    /// Goes on by one event. Out of memory, the tips stay as they were.
    pub fn note(&mut self, event: &PlainEvent) -> Result<(), NoMemory>
        ensures ok { OnOk result (self.new ≡ refs_after self.old (event.now ∷ [])) }
        ensures err { OnErr result (self.new ≡ self.old) }
    {
        match event {
            PlainEvent::Commit { id, branch, .. } => self.set(branch.as_slice(), *id),
            PlainEvent::Reset { branch, target, .. } => match target {
                Some(commit) => self.set(branch.as_slice(), *commit),
                None => {
                    self.remove(branch.as_slice());
                    Ok(())
                }
            },
            _ => Ok(()),
        }
    }
}

// Each branch of the map with its tip, of the last one the newer.
fn list_of(
    alloc: Global,
    by_branch: &BTreeMap<Vec<u8>, CommitId>,
    last: &LastTip,
) -> Result<TipList, NoMemory>
    requires in_order { AreInOrder by_branch.now.entries }
    requires among { IsTrue (is_among last.now (tips_in by_branch.now.entries)) }
    ensures { IfOk result (λ list. list ≡ tips_with last.now (tips_in by_branch.now.entries)) }
{
    let mut list = Items::new(alloc)?;
    for (branch, tip) in by_branch {
        let tip = last.tip_of(branch.as_slice()).unwrap_or(*tip);
        list.push((Items::of(alloc, branch.as_slice())?, tip))?;
    }
    Ok(list)
}

// In the map the branch is on the commit from now on. Only a new entry takes memory.
fn put_in(
    alloc: Global,
    by_branch: &mut BTreeMap<Vec<u8>, CommitId>,
    branch: &[u8],
    tip: CommitId,
) -> Result<(), NoMemory>
    requires { AreInOrder by_branch.old.entries }
    ensures in_order { AreInOrder by_branch.new.entries }
    ensures ok { OnOk result (tips_in by_branch.new.entries ≡ put branch.now tip (tips_in by_branch.old.entries)) }
    ensures err { OnErr result (by_branch.new.entries ≡ by_branch.old.entries) }
{
    if let Some(known) = by_branch.get_mut(branch) {
        *known = tip;
        return Ok(());
    }
    let branch = Vec::from_slice(alloc, branch)?;
    by_branch.insert(branch, tip)?;
    Ok(())
}
