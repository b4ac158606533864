//! Whether what is moved is clear of matched paths.
ghost use Rattle.std.specs.Prelude.{◌≡◌, ◌++◌, drop, length, IfOk, OnOk};
ghost use Rattle.expunge_laws.specs.Replaced.{has_matched, is_clear, restricted};
ghost use Rattle.expunge_laws.specs.Matching.{matched_by};
ghost use Rattle.plain_model.specs.Trees.{moved};
ghost use Rattle.squash_laws.specs.Takings.{is_none};

use crate::matching::Matching;
use path_tree::PathTree;
use plain_model::{Entry, NoMemory, Path, Text};
use std::alloc::Global;

// Whether some path of a tree is matched.
fn has_matched(matching: &mut Matching<'_>, entries: &[(Path, Entry)]) -> bool
    ensures found { result ≡ has_matched (matched_by matching.old) entries.now }
    ensures same { matching.new ≡ matching.old }
{
    for entry in entries {
        if matching.matches(entry.0.as_bytes()) {
            return true;
        }
    }
    false
}

/// Whether each path of a tree is matched.
pub fn are_all_matched(matching: &mut Matching<'_>, entries: &[(Path, Entry)]) -> bool
    ensures found { result ≡ is_none (restricted (matched_by matching.old) entries.now) }
    ensures same { matching.new ≡ matching.old }
{
    for entry in entries {
        if !matching.matches(entry.0.as_bytes()) {
            return false;
        }
    }
    true
}

// Puts the path to which a path at or below the source moves in the place of another text.
fn set_moved(path: &mut Text, source: &[u8], target: &[u8], own: &[u8]) -> Result<(), NoMemory>
    ensures { OnOk result (path.new ≡ target.now ++ drop (length source.now) own.now) }
{
    path.truncate(0);
    path.push_all(target)?;
    if own.len() <= source.len() {
        return Ok(());
    }
    path.push_all(&own[source.len()..])
}

// Whether a tree that is moved has a matched path then.
fn has_matched_moved(
    alloc: Global,
    matching: &mut Matching<'_>,
    source: &[u8],
    target: &[u8],
    entries: &[(Path, Entry)],
) -> Result<bool, NoMemory>
    ensures found { IfOk result (λ found.
        found ≡ has_matched (matched_by matching.old) (moved source.now target.now entries.now)) }
    ensures same { matching.new ≡ matching.old }
{
    let mut path = Text::empty(alloc);
    for entry in entries {
        set_moved(&mut path, source, target, entry.0.as_bytes())?;
        if matching.matches(path.as_slice()) {
            return Ok(true);
        }
    }
    Ok(false)
}

/// Whether a copy or a rename takes no matched path, and puts none.
pub fn is_clear(
    alloc: Global,
    matching: &mut Matching<'_>,
    source: &Path,
    target: &Path,
    old: &PathTree,
) -> Result<bool, NoMemory>
    ensures clear { IfOk result (λ clear.
        clear ≡ is_clear (matched_by matching.old) source.now target.now old.now) }
    ensures same { matching.new ≡ matching.old }
{
    let entries = old.entries_below(source)?;
    if has_matched(matching, entries.as_slice()) {
        return Ok(false);
    }
    let moved = has_matched_moved(
        alloc,
        matching,
        source.as_bytes(),
        target.as_bytes(),
        entries.as_slice(),
    )?;
    Ok(!moved)
}
