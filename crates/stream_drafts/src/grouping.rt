//! The aliases of each commit.
ghost use Rattle.std.specs.Prelude.{
  ◌≡◌,
  ◌==◌,
  ◌∷◌,
  ◌++◌,
  [],
  ℕ,
  nat_eq,
  unwrap_or,
  IfOk,
  OnOk,
  if◌then◌else◌,
};
ghost use Rattle.std.specs.HashMap.{get};
ghost use Rattle.stream_drafts.specs.Aliased.{AreGrouped};

use plain_model::{CommitId, Copied, Items, Mark, MarkList, NoMemory};
use std::alloc::Global;
use std::collections::HashMap;

// Puts a mark after the others of a commit.
fn put_alias(
    alloc: Global,
    groups: &mut HashMap<u64, MarkList>,
    mark: Mark,
    commit: CommitId,
) -> Result<(), NoMemory>
    ensures { OnOk result ((c : ℕ) → unwrap_or (get nat_eq groups.new c) [] ≡
        (if commit == c then unwrap_or (get nat_eq groups.old c) [] ++ mark ∷ []
        else unwrap_or (get nat_eq groups.old c) [])) }
{
    if let Some(marks) = groups.get_mut(&commit.number()) {
        return marks.push(mark);
    }
    let marks = Items::of(alloc, &[mark])?;
    let _ = groups.insert(commit.number(), marks)?;
    Ok(())
}

/// The aliases of each commit that has some, in the order in which they came.
pub fn grouped(
    alloc: Global,
    aliases: &[(Mark, CommitId)],
) -> Result<HashMap<u64, MarkList>, NoMemory>
    ensures { IfOk result (λ groups. AreGrouped aliases.now (get nat_eq groups)) }
{
    let mut groups = HashMap::new(alloc);
    for (mark, commit) in aliases {
        put_alias(alloc, &mut groups, *mark, *commit)?;
    }
    Ok(groups)
}

/// The aliases of a commit.
pub fn aliases_in(
    alloc: Global,
    groups: &HashMap<u64, MarkList>,
    commit: CommitId,
) -> Result<MarkList, NoMemory>
    ensures { IfOk result (λ marks. marks ≡ unwrap_or (get nat_eq groups.now commit) []) }
{
    match groups.get(&commit.number()) {
        Some(marks) => marks.copied(alloc),
        None => Ok(Items::empty(alloc)),
    }
}
