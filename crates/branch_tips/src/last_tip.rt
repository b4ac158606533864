//! The branch that was set last.
ghost use Rattle.std.specs.Prelude.{◌≡◌, Some, None, is_some, if◌then◌else◌, IfSome, IsTrue};
ghost use Rattle.branch_tips.specs.Entries.{tips_in, tip_of, tips_with, is_among, AreInOrder};

use plain_model::CommitId;
use std::alloc::Global;
use std::collections::BTreeMap;
use std::marker::Model;

/// The branch that was set last with its tip, or none. The next one's name is kept in the same memory.
#[derive(Drop)]
pub struct LastTip {
    branch: Vec<u8>,
    tip: Option<CommitId>,
}

impl Model for LastTip {
    ghost use Rattle.std.specs.Prelude.{List, ℕ, Option, option_map};

    ghost Value = { Option (List ℕ × ℕ) };

    ghost view = { λ l. option_map (λ tip. (l.branch.items, tip)) l.tip };
}

impl LastTip {
    /// No branch.
    pub fn none(alloc: Global) -> LastTip
        ensures { result ≡ None }
    {
        LastTip {
            branch: Vec::new(alloc),
            tip: None,
        }
    }

    /// The tip, if this is the branch.
    pub fn tip_of(&self, branch: &[u8]) -> Option<CommitId>
        ensures { result ≡ tip_of self.now branch.now }
    {
        if self.branch.as_slice() == branch {
            self.tip
        } else {
            None
        }
    }

    /// If this is the branch, it is on the commit from now on. Answers whether it is.
    pub fn move_to(&mut self, branch: &[u8], tip: CommitId) -> bool
        ensures is_last { result ≡ is_some (tip_of self.old branch.now) }
        ensures moved { self.new ≡ if result then Some (branch.now, tip) else self.old }
    {
        if self.tip_of(branch).is_none() {
            return false;
        }
        self.tip = Some(tip);
        true
    }

    /// This is the branch from now on. Where there is no memory for its name, there is none.
    pub fn keep(&mut self, branch: &[u8], tip: CommitId)
        ensures { IfSome self.new (λ last. last ≡ (branch.now, tip)) }
    {
        self.branch.clear();
        self.tip = match self.branch.extend_from_slice(branch) {
            Ok(()) => Some(tip),
            Err(_) => None,
        };
    }

    // Writes the tip to the branch's entry in the map, and there is no last branch any more.
    fn write_to(&mut self, by_branch: &mut BTreeMap<Vec<u8>, CommitId>)
        requires in_order { AreInOrder by_branch.old.entries }
        requires among { IsTrue (is_among self.old (tips_in by_branch.old.entries)) }
        ensures tips { tips_in by_branch.new.entries ≡ tips_with self.old (tips_in by_branch.old.entries) }
        ensures in_order { AreInOrder by_branch.new.entries }
        ensures none { self.new ≡ None }
    {
        if let Some(tip) = self.tip.take() {
            if let Some(known) = by_branch.get_mut(self.branch.as_slice()) {
                *known = tip;
            }
        }
    }

    /// The map has the tip, which is written there unless it is there, and there is no last branch any more.
    pub fn settle(&mut self, by_branch: &mut BTreeMap<Vec<u8>, CommitId>, is_there: bool)
        requires in_order { AreInOrder by_branch.old.entries }
        requires among { IsTrue (is_among self.old (tips_in by_branch.old.entries)) }
        requires there { IsTrue is_there →
            tips_with self.old (tips_in by_branch.old.entries) ≡ tips_in by_branch.old.entries }
        ensures tips { tips_in by_branch.new.entries ≡ tips_with self.old (tips_in by_branch.old.entries) }
        ensures in_order { AreInOrder by_branch.new.entries }
        ensures none { self.new ≡ None }
    {
        if is_there {
            self.tip = None;
        } else {
            self.write_to(by_branch);
        }
    }
}
