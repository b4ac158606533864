//! The image of a whole tree, and what makes one tree of another.
ghost use Rattle.std.specs.Prelude.{
  ◌≡◌,
  ◌++◌,
  ◌∷◌,
  [],
  Ok,
  false,
  filter,
  not,
  true,
  IfOk,
  IsErr,
  OnOk,
};
ghost use Rattle.expunge_laws.specs.Replaced.{deletes_of, has_entry, mode_number, same_content, same_entry};
ghost use Rattle.edit_laws.specs.Puts.{puts_of};
ghost use Rattle.path_move_laws.specs.Difference.{are_same, difference};
ghost use Rattle.plain_model.specs.Trees.{apply, at, has, where_path};
ghost use Rattle.squash_laws.specs.Takings.{is_none};

use path_move_laws::a_difference_tells_trees_apart;
use path_tree::{ApplyFault, PathTree};
use plain_model::{Content, Copied, Entry, FileOp, Mode, NoMemory, OpList, Path, Steps};
use std::alloc::Global;

// The steps of the trees here, which nobody looks at.
struct Written;

/// Applies an operation, or finds that it is refused, and leaves the tree as it was.
pub fn apply(tree: &mut PathTree, op: &FileOp) -> Result<bool, NoMemory>
    ensures applied { IfOk result (λ done. done ≡ true → apply op.now tree.old ≡ Ok tree.new) }
    ensures refused { IfOk result (λ done. done ≡ false → IsErr (apply op.now tree.old)) }
    ensures same { IfOk result (λ done. done ≡ false → tree.new ≡ tree.old) }
{
    let mut steps: Steps<Written> = Steps::new();
    match tree.apply(op, &mut steps) {
        Ok(()) => Ok(true),
        Err(ApplyFault::Memory) => Err(NoMemory),
        Err(_) => Ok(false),
    }
}

fn mode_number(mode: Mode) -> u8
    ensures { result ≡ mode_number mode }
{
    match mode {
        Mode::Plain => 0,
        Mode::Executable => 1,
        Mode::Link => 2,
        Mode::Gitlink => 3,
    }
}

fn same_content(one: &Content, other: &Content) -> bool
    ensures { result ≡ same_content one.now other.now }
{
    match one {
        Content::Blob(one) => match other {
            Content::Blob(other) => one.number() == other.number(),
            Content::Object(_) => false,
        },
        Content::Object(one) => match other {
            Content::Object(other) => one.digits() == other.digits(),
            Content::Blob(_) => false,
        },
    }
}

// Whether two entries are the same.
fn same_entry(one: Entry, other: Entry) -> bool
    ensures { result ≡ same_entry one other }
{
    mode_number(one.mode) == mode_number(other.mode) && same_content(&one.content, &other.content)
}

// Whether this entry is there.
fn has_entry(there: Option<Entry>, entry: Entry) -> bool
    ensures { result ≡ has_entry there entry }
{
    match there {
        Some(there) => same_entry(there, entry),
        None => false,
    }
}

// Puts a deletion of a path at the end.
fn push_delete(path: &Path, made: &mut OpList) -> Result<(), NoMemory>
    ensures { OnOk result (made.new ≡ made.old ++ FileOp.Delete path.now ∷ []) }
{
    let path = path.copied(made.alloc())?;
    made.push(FileOp::Delete { path })
}

// Deletes each path that isn't in the new tree.
fn push_gone(old: &[(Path, Entry)], new: &PathTree, made: &mut OpList) -> Result<(), NoMemory>
    ensures { OnOk result
        (made.new ≡ made.old ++ deletes_of (where_path (λ p. not (has new.now p)) old.now)) }
{
    for entry in old {
        if new.get(&entry.0).is_none() {
            push_delete(&entry.0, made)?;
        }
    }
    Ok(())
}

// Puts an entry at its path.
fn push_put(path: &Path, entry: Entry, made: &mut OpList) -> Result<(), NoMemory>
    ensures { OnOk result
        (made.new ≡ made.old ++ FileOp.Modify entry.mode entry.content path.now ∷ []) }
{
    let path = path.copied(made.alloc())?;
    made.push(FileOp::Modify {
        mode: entry.mode,
        content: entry.content,
        path,
    })
}

// Puts each entry that isn't in the old tree.
fn push_come(old: &PathTree, new: &[(Path, Entry)], made: &mut OpList) -> Result<(), NoMemory>
    ensures { OnOk result (made.new ≡ made.old
        ++ puts_of (filter (λ e. not (has_entry (at old.now e.0) e.1)) new.now)) }
{
    for entry in new {
        if !has_entry(old.get(&entry.0), entry.1) {
            push_put(&entry.0, entry.1, made)?;
        }
    }
    Ok(())
}

/// Puts what makes the new tree of the old one at the end.
pub fn push_difference(old: &PathTree, new: &PathTree, made: &mut OpList) -> Result<(), NoMemory>
    ensures { OnOk result (made.new ≡ made.old ++ difference old.now new.now) }
{
    let was = old.entries()?;
    push_gone(was.as_slice(), new, made)?;
    let is = new.entries()?;
    push_come(old, is.as_slice(), made)
}

// Whether there is no operation.
fn is_nothing(ops: &[FileOp]) -> bool
    ensures { result ≡ is_none ops.now }
{
    match ops {
        [] => true,
        _ => false,
    }
}

/// Whether two trees are the same.
pub fn are_same(alloc: Global, one: &PathTree, other: &PathTree) -> Result<bool, NoMemory>
    ensures { IfOk result (λ same. same ≡ are_same one.now other.now) }
{
    a_difference_tells_trees_apart();
    let _one = one.entries()?;
    let _other = other.entries()?;
    let mut made = OpList::empty(alloc);
    push_difference(one, other, &mut made)?;
    Ok(is_nothing(made.as_slice()))
}
