//! What is outside the matched paths of two trees, as operations from the one to the other.
ghost use Rattle.std.specs.Prelude.{
  ◌≡◌,
  ◌++◌,
  ◌&&◌,
  ◌==◌,
  ◌∷◌,
  [],
  Bool,
  Ok,
  filter,
  not,
  IfOk,
  IsTrue,
  OnOk,
};
ghost use Rattle.edit_laws.specs.Puts.{puts_of};
ghost use Rattle.expunge_laws.specs.Replaced.{
  deletes_of,
  has_entry,
  mode_number,
  restricted,
  rewritten,
  same_content,
};
ghost use Rattle.expunge_laws.specs.Matching.{matched_by};
ghost use Rattle.path_expunge.specs.Written.{gone_of, moving};
ghost use Rattle.plain_model.specs.Paths.{Bytes, do_conflict, is_below};
ghost use Rattle.plain_model.specs.Trees.{IsTree, apply, at, change, where_path};
ghost use Rattle.plain_model.specs.Trees.Change.{Put};

use crate::matching::Matching;
use path_tree::PathTree;
use plain_model::{Content, Copied, Entry, EntryList, FileOp, Mode, NoMemory, OpList, Path};

fn mode_number(mode: Mode) -> u8
    ensures { result ≡ mode_number mode }
{
    match mode {
        Mode::Plain => 0,
        Mode::Executable => 1,
        Mode::Link => 2,
        Mode::Gitlink => 3,
    }
}

fn same_content(one: &Content, other: &Content) -> bool
    ensures { result ≡ same_content one.now other.now }
{
    match one {
        Content::Blob(one) => match other {
            Content::Blob(other) => one.number() == other.number(),
            Content::Object(_) => false,
        },
        Content::Object(one) => match other {
            Content::Object(other) => one.digits() == other.digits(),
            Content::Blob(_) => false,
        },
    }
}

// Whether this entry is there.
fn has_entry(there: Option<Entry>, entry: Entry) -> bool
    ensures { result ≡ has_entry there entry }
{
    match there {
        Some(there) => {
            mode_number(there.mode) == mode_number(entry.mode)
                && same_content(&there.content, &entry.content)
        }
        None => false,
    }
}

// Puts a deletion of a path at the end.
fn push_delete(path: &Path, made: &mut OpList) -> Result<(), NoMemory>
    ensures { OnOk result (made.new ≡ made.old ++ FileOp.Delete path.now ∷ []) }
{
    let path = path.copied(made.alloc())?;
    made.push(FileOp::Delete { path })
}

// Deletes each path that isn't matched and isn't in the new tree.
fn push_deletes(
    matching: &mut Matching<'_>,
    old: &[(Path, Entry)],
    new: &PathTree,
    made: &mut OpList,
) -> Result<(), NoMemory>
    ensures made { OnOk result (made.new ≡ made.old
        ++ deletes_of (gone_of (matched_by matching.old) new.now old.now)) }
    ensures same { matching.new ≡ matching.old }
{
    for entry in old {
        if !matching.matches(entry.0.as_bytes()) && new.get(&entry.0).is_none() {
            push_delete(&entry.0, made)?;
        }
    }
    Ok(())
}

// Puts an entry at its path.
fn push_modify(path: &Path, entry: Entry, made: &mut OpList) -> Result<(), NoMemory>
    ensures { OnOk result
        (made.new ≡ made.old ++ FileOp.Modify entry.mode entry.content path.now ∷ []) }
{
    let path = path.copied(made.alloc())?;
    made.push(FileOp::Modify {
        mode: entry.mode,
        content: entry.content,
        path,
    })
}

// Puts each entry that isn't at a matched path and isn't in the old tree.
fn push_new_entries(
    matching: &mut Matching<'_>,
    old: &PathTree,
    new: &[(Path, Entry)],
    made: &mut OpList,
) -> Result<(), NoMemory>
    ensures made { OnOk result (made.new ≡ made.old
        ++ puts_of (filter (λ e. not (has_entry (at old.now e.0) e.1))
        (restricted (matched_by matching.old) new.now))) }
    ensures same { matching.new ≡ matching.old }
{
    for entry in new {
        if !matching.matches(entry.0.as_bytes()) && !has_entry(old.get(&entry.0), entry.1) {
            push_modify(&entry.0, entry.1, made)?;
        }
    }
    Ok(())
}

// Of what was in a tree before a copy or a rename, all that may have gone. Where there are enough paths after it,
// nothing was in its way.
fn entries_gone(
    copied: bool,
    source: &Path,
    target: &Path,
    old: &PathTree,
    new: &PathTree,
) -> Result<EntryList, NoMemory>
    requires tree { IsTree old.now }
    requires applied { apply (moving copied source.now target.now) old.now ≡ Ok new.now }
    ensures { IfOk result (λ entries. (matched : Bytes → Bool) →
        gone_of matched new.now entries ≡ gone_of matched new.now old.now) }
{
    let taken = old.entries_below(source)?;
    let more = if copied { taken.as_slice().len() } else { 0 };
    if old.len() <= new.len() && more <= new.len() - old.len() {
        return Ok(taken);
    }
    old.entries()
}

/// What a copy or a rename does outside the matched paths, as deletions and entries that are put.
pub fn push_rewritten(
    matching: &mut Matching<'_>,
    copied: bool,
    source: &Path,
    target: &Path,
    old: &PathTree,
    new: &PathTree,
    made: &mut OpList,
) -> Result<(), NoMemory>
    requires tree { IsTree old.now }
    requires applied { apply (moving copied source.now target.now) old.now ≡ Ok new.now }
    ensures made { OnOk result
        (made.new ≡ made.old ++ rewritten (matched_by matching.old) old.now new.now) }
    ensures same { matching.new ≡ matching.old }
{
    let was = entries_gone(copied, source, target, old, new)?;
    push_deletes(matching, was.as_slice(), new, made)?;
    let is = new.entries_below(target)?;
    push_new_entries(matching, old, is.as_slice(), made)
}

// Whether the second path is below the first.
fn is_below(path: &[u8], other: &[u8]) -> bool
    ensures { result ≡ is_below path.now other.now }
{
    if !other.starts_with(path) {
        return false;
    }
    match &other[path.len()..] {
        [] => false,
        [byte, ..] => *byte == b'/',
    }
}

// Whether it is known by a look at two trees that nothing gave way to what was put at a path: it was there, or there is
// one path more.
fn is_free(path: &Path, old: &PathTree, new: &PathTree) -> bool
    ensures { IsTree old.now → (entry : _) → change (Put entry path.now) old.now ≡ Ok new.now →
        IsTrue result → (matched : Bytes → Bool) →
        where_path (do_conflict path.now) (restricted matched old.now) ≡ [] }
{
    if old.get(path).is_some() {
        return true;
    }
    new.len() > old.len()
}

/// Deletes what gave way to what was put at a path, but for matched paths.
pub fn push_way_clear(
    matching: &mut Matching<'_>,
    path: &Path,
    old: &PathTree,
    new: &PathTree,
    made: &mut OpList,
) -> Result<(), NoMemory>
    requires tree { IsTree old.now }
    requires put { (entry : _) × (change (Put entry path.now) old.now ≡ Ok new.now) }
    ensures made { OnOk result (made.new ≡ made.old
        ++ deletes_of (where_path (do_conflict path.now)
        (restricted (matched_by matching.old) old.now))) }
    ensures same { matching.new ≡ matching.old }
{
    if is_free(path, old, new) {
        return Ok(());
    }
    let entries = old.entries()?;
    for entry in entries.as_slice() {
        let own = entry.0.as_bytes();
        if (is_below(path.as_bytes(), own) || is_below(own, path.as_bytes()))
            && !matching.matches(own)
        {
            push_delete(&entry.0, made)?;
        }
    }
    Ok(())
}
