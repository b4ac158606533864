//! Where blobs and commits are found by mark, and tips by branch; and which marks tags have.
ghost use Rattle.std.specs.Prelude.{
  ◌≡◌,
  ◌≤◌,
  ◌<◌,
  ◌∷◌,
  [],
  ℕ,
  Some,
  None,
  nat_eq,
  OnOk,
  OnErr,
  if◌then◌else◌,
  ◌==◌,
  ◌||◌,
};
ghost use Rattle.std.specs.HashMap.{get, spare};
ghost use Rattle.std.specs.HashSet.{contains, spare as set_spare};
ghost use Rattle.plain_model.specs.Marks.{IsMark};
ghost use Rattle.plain_model.specs.Snapshots.{refs_after};
ghost use Rattle.plain_model.specs.Streams.{blob_marked, commit_marked};
ghost use Rattle.stream_drafts.specs.Events.{event_of, event_without_mark};
ghost use Rattle.stream_drafts.specs.Indexed.{first_of, tag_marked};
ghost use Rattle.stream_drafts.specs.Rising.{AreApart, HasRoom, finds};

use crate::draft::{Draft, Unmarked};
use crate::marked_ids::MarkedIds;
use branch_tips::Tips;
use plain_model::{CommitId, Mark, NoMemory, PlainEvent};
use std::collections::{HashMap, HashSet};

/// Makes room for one alias more.
pub fn make_commit_room(commits: &mut HashMap<u64, CommitId>) -> Result<(), NoMemory>
    ensures same { (n : ℕ) → get nat_eq commits.new n ≡ get nat_eq commits.old n }
    ensures room { OnOk result (0 < spare commits.new) }
{
    commits.reserve(1)?;
    Ok(())
}

/// Makes room for one mark more.
pub fn make_tag_room(tags: &mut HashSet<u64>) -> Result<(), NoMemory>
    ensures same { (n : ℕ) → contains nat_eq tags.new n ≡ contains nat_eq tags.old n }
    ensures room { OnOk result (0 < set_spare tags.new) }
{
    tags.reserve(1)?;
    Ok(())
}

/// Notes a mark and the commit that it finds, if it finds none yet.
pub fn note_commit_mark(commits: &mut HashMap<u64, CommitId>, mark: Mark, id: CommitId)
    requires { 0 < spare commits.old }
    ensures finds { (n : ℕ) → get nat_eq commits.new n ≡
        first_of (get nat_eq commits.old n) (if mark == n then Some id else None) }
    ensures fits { IsMark mark }
{
    // Mostly the mark is new, so that one search does.
    let noted: Result<_, _> = commits.insert(mark.number(), id);
    if let Some(first) = noted.unwrap() {
        let kept: Result<_, _> = commits.insert(mark.number(), first);
        let _ = kept.unwrap();
    }
}

/// Notes the mark of a blob, if it has one that no earlier blob has.
pub fn note_blob(blobs: &mut MarkedIds, draft: &Draft)
    requires apart { AreApart blobs.old }
    requires room { HasRoom blobs.old }
    ensures finds { (n : ℕ) → 1 ≤ n → finds blobs.new n ≡
        first_of (finds blobs.old n) (blob_marked (event_of draft.now ∷ []) n) }
    ensures apart { AreApart blobs.new }
{
    let Draft::Whole(event) = draft else {
        return;
    };
    if let PlainEvent::Blob { id, mark, .. } = event.as_ref() {
        blobs.note(mark.number(), id.number());
    }
}

/// Notes the mark of a commit, if it has one that no earlier commit has.
pub fn note_commit(commits: &mut MarkedIds, draft: &Draft)
    requires apart { AreApart commits.old }
    requires room { HasRoom commits.old }
    ensures finds { (n : ℕ) → 1 ≤ n → finds commits.new n ≡
        first_of (finds commits.old n) (commit_marked (event_of draft.now ∷ []) n) }
    ensures apart { AreApart commits.new }
{
    let Draft::Whole(event) = draft else {
        return;
    };
    if let PlainEvent::Commit { id, mark, .. } = event.as_ref() {
        commits.note(mark.number(), id.number());
    }
}

/// Notes the mark of a tag, if it has one.
pub fn note_tag(tags: &mut HashSet<u64>, draft: &Draft)
    requires { 0 < set_spare tags.old }
    ensures { (n : ℕ) → contains nat_eq tags.new n ≡
        (contains nat_eq tags.old n || tag_marked (event_of draft.now ∷ []) n) }
{
    let Draft::Whole(event) = draft else {
        return;
    };
    if let PlainEvent::Tag {
        mark: Some(mark),
        ..
    } = event.as_ref()
    {
        let noted: Result<_, _> = tags.insert(mark.number());
        let _ = noted.unwrap();
    }
}

fn note_unmarked_tip(tips: &mut Tips, unmarked: &Unmarked) -> Result<(), NoMemory>
    ensures ok { OnOk result
        (tips.new ≡ refs_after tips.old (event_without_mark unmarked.now ∷ [])) }
    ensures err { OnErr result (tips.new ≡ tips.old) }
{
    match unmarked {
        Unmarked::Commit { id, fields } => tips.set(fields.branch.as_slice(), *id),
        Unmarked::Blob { .. } => Ok(()),
    }
}

/// Sets or removes the tip of the branch that the event changes, if it changes one.
pub fn note_tip(tips: &mut Tips, draft: &Draft) -> Result<(), NoMemory>
    ensures ok { OnOk result (tips.new ≡ refs_after tips.old (event_of draft.now ∷ [])) }
    ensures err { OnErr result (tips.new ≡ tips.old) }
{
    match draft {
        Draft::Whole(event) => tips.note(event.as_ref()),
        Draft::Unmarked(unmarked) => note_unmarked_tip(tips, unmarked.as_ref()),
    }
}
