//! The trees of commits, a line for each path.
ghost use Rattle.std.specs.Prelude.{◌≡◌, ◌++◌, codes, flat_map, OnOk};
ghost use Rattle.listing.specs.Listings.{line_of};
ghost use Rattle.listing.specs.TreeListings.{entry_line, manifest_lines, manifest_text};
ghost use Rattle.manifest_cache.specs.Kept.{AgreesWith};
ghost use Rattle.plain_model.specs.Lookups.{find_event, number_of};
ghost use Rattle.plain_model.specs.Text.{line, marked, raw_content, raw_content_text};

use crate::fields::push_mark;
use crate::finding::blob_mark_of;
use event_arena::Events;
use manifest_cache::Manifests;
use path_tree::PathTree;
use plain_model::{
    AnyId, CommitId, Content, Entry, Mark, NoMemory, Path, Place, PlainEvent, Steps, Text,
};
use stream_fields::{mode_digits, write_path};

// The steps of folding trees for a manifest, which nobody looks at.
struct Shown;

fn push_content(events: &Events, content: Content, into: &mut Text) -> Result<(), NoMemory>
    ensures { OnOk result
        (into.new ≡ into.old ++ raw_content_text (raw_content events.now.list content)) }
{
    match content {
        Content::Blob(blob) => push_mark(blob_mark_of(events, blob), into),
        Content::Object(id) => into.push_all(id.digits()),
    }
}

fn push_entry(events: &Events, path: &Path, entry: Entry, into: &mut Text) -> Result<(), NoMemory>
    ensures { OnOk result
        (into.new ≡ into.old ++ entry_line events.now.list (path.now, entry)) }
{
    into.push_all(mode_digits(entry.mode))?;
    into.push(b' ')?;
    push_content(events, entry.content, into)?;
    into.push(b' ')?;
    write_path(path, Place::Last, into)?;
    into.push(b'\n')
}

fn push_tree(events: &Events, tree: &PathTree, into: &mut Text) -> Result<(), NoMemory>
    ensures { OnOk result
        (into.new ≡ into.old ++ flat_map (entry_line events.now.list) tree.now) }
{
    let entries = tree.entries()?;
    for (path, entry) in entries.as_slice() {
        push_entry(events, path, *entry, into)?;
    }
    Ok(())
}

fn push_commit_mark(mark: Mark, into: &mut Text) -> Result<(), NoMemory>
    ensures { OnOk result (into.new ≡ into.old ++ line (codes "commit " ++ marked mark)) }
{
    into.push_all(b"commit ")?;
    push_mark(mark.number(), into)?;
    into.push(b'\n')
}

fn push_manifest(
    events: &Events,
    manifests: &mut Manifests,
    id: &AnyId,
    into: &mut Text,
) -> Result<(), NoMemory>
    requires { AgreesWith events.now.list manifests.old }
    ensures text { let all = events.now.list in
        OnOk result (into.new ≡
        into.old ++ line_of (manifest_lines all) (number_of id.now all) (find_event id.now all)) }
    ensures agrees { AgreesWith events.now.list manifests.new }
{
    match events.event(*id) {
        Some(PlainEvent::Commit { id, mark, .. }) => {
            push_commit_mark(*mark, into)?;
            let mut steps: Steps<Shown> = Steps::new();
            let tree = manifests.get(events, *id, &mut steps)?;
            push_tree(events, tree, into)
        }
        _ => Ok(()),
    }
}

/// Puts the trees of the commits among the given events, in the order of the ids.
#[tactic(auto, unfolding(crate::specs::TreeListings::manifest_text))]
pub fn manifest(
    events: &Events,
    manifests: &mut Manifests,
    set: &[AnyId],
    into: &mut Text,
) -> Result<(), NoMemory>
    requires { AgreesWith events.now.list manifests.old }
    ensures text { OnOk result (into.new ≡ into.old ++ manifest_text events.now.list set.now) }
    ensures agrees { AgreesWith events.now.list manifests.new }
{
    for id in set {
        push_manifest(events, manifests, id, into)?;
    }
    Ok(())
}
