//! How long paths get, by the operations alone.
ghost use Rattle.std.specs.Prelude.{◌≡◌, ◌-◌, length, IfSome};
ghost use Rattle.std.specs.List.{list_any};
ghost use Rattle.path_move_laws.specs.Lengths.{longest_after, longest_after_all, longest_gone, longest_in};
ghost use Rattle.path_move_laws.specs.LongPuts.{has_long_put, is_long_put};
ghost use Rattle.path_move_laws.specs.PathMaps.{image_of};
ghost use Rattle.path_move_laws.specs.declared.path_map.PathMap.TheVariants.{Sub};
ghost use Rattle.plain_model.specs.declared.limit.TheConstants.{MAX_PATH_BYTES};

use event_arena::Events;
use plain_model::{FileOp, MAX_PATH_BYTES, Path};

// The most bytes of a path where paths of at most so many go from one path to another, unless that is no number.
fn longest_gone(longest: u64, source: &Path, target: &Path) -> Option<u64>
    ensures { IfSome result (λ most. most ≡ longest_gone longest source.now target.now) }
{
    let source = source.as_bytes().len() as u64;
    let target = target.as_bytes().len() as u64;
    let gone = target.checked_add(longest.saturating_sub(source))?;
    Some(longest.max(source).max(gone))
}

// The most bytes of a path after an operation before which they were so many.
fn longest_after(longest: u64, op: &FileOp) -> Option<u64>
    ensures { IfSome result (λ most. most ≡ longest_after longest op.now) }
{
    match op {
        FileOp::Modify { path, .. } => Some(longest.max(path.as_bytes().len() as u64)),
        FileOp::Delete { path } => Some(longest.max(path.as_bytes().len() as u64)),
        FileOp::Copy { source, target } => longest_gone(longest, source, target),
        FileOp::Rename { source, target } => longest_gone(longest, source, target),
        FileOp::DeleteAll => Some(longest),
    }
}

// The same after operations in turn.
fn longest_after_all(longest: u64, ops: &[FileOp]) -> Option<u64>
    ensures { IfSome result (λ most. most ≡ longest_after_all longest ops.now) }
{
    let mut most = longest;
    for op in ops {
        most = longest_after(most, op)?;
    }
    Some(most)
}

/// The most bytes of a path that a tree of the history may have, or that an operation says, as far as operations tell.
pub fn longest_in(events: &Events) -> Option<u64>
    ensures { IfSome result (λ most. most ≡ longest_in 0 events.now.list) }
{
    let mut most: u64 = 0;
    for place in 0..events.count() {
        most = longest_after_all(most, events.nth(place).ops())?;
    }
    Some(most)
}

/// From how many bytes on a path is too long below a folder.
pub fn room_below(folder: &Path) -> u64
    ensures { result ≡ MAX_PATH_BYTES - length folder.now }
{
    MAX_PATH_BYTES.saturating_sub(folder.as_bytes().len() as u64)
}

// Whether an operation puts a path that is too long below the folder.
fn is_long_put(folder: &Path, op: &FileOp) -> bool
    ensures { result ≡ is_long_put (image_of (Sub folder.now)) op.now }
{
    match op {
        FileOp::Modify { path, .. } => room_below(folder) <= path.as_bytes().len() as u64,
        _ => false,
    }
}

// Whether one of the operations does.
fn have_long_put(folder: &Path, ops: &[FileOp]) -> bool
    ensures { result ≡ list_any (is_long_put (image_of (Sub folder.now))) ops.now }
{
    for op in ops {
        if is_long_put(folder, op) {
            return true;
        }
    }
    false
}

/// Whether a commit puts a path that is too long below the folder.
pub fn has_long_put(folder: &Path, events: &Events) -> bool
    ensures { result ≡ list_any (has_long_put (image_of (Sub folder.now))) events.now.list }
{
    for place in 0..events.count() {
        if have_long_put(folder, events.nth(place).ops()) {
            return true;
        }
    }
    false
}
