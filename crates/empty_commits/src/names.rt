//! The names of tags, and the first that is taken.
ghost use Rattle.std.specs.Prelude.{◌≡◌, ◌<◌, Some, bytes_eq, length, slice_get, IfOk};
ghost use Rattle.std.specs.List.{list_any};
ghost use Rattle.empty_commits.specs.Names.{taken_for};
ghost use Rattle.plain_model.specs.Paths.{Bytes};
ghost use Rattle.tagify_laws.specs.Tagify.{has_tag_named, tag_name, taken_name};

use crate::empties::Empties;
use byte_sets::ByteSet;
use event_arena::Events;
use plain_model::{Mark, NoMemory, PlainEvent, Text};
use std::alloc::Global;

// The names of all tags.
fn tag_names<'a>(alloc: Global, events: &'a Events) -> Result<ByteSet<'a>, NoMemory>
    ensures { IfOk result (λ names. (name : Bytes) →
        list_any (bytes_eq name) names ≡ has_tag_named events.now.list name) }
{
    let mut names = ByteSet::new(alloc);
    for place in 0..events.count() {
        if let PlainEvent::Tag { name, .. } = events.nth(place) {
            names.add(name.as_slice())?;
        }
    }
    Ok(names)
}

/// The name of the tag that a commit with the mark becomes.
pub fn tag_name(alloc: Global, mark: Mark) -> Result<Text, NoMemory>
    ensures { IfOk result (λ name. name ≡ tag_name mark) }
{
    let mut name = Text::of(alloc, b"emptycommit-")?;
    name.push_number(mark.number())?;
    Ok(name)
}

// The name of the tag that the event at a place becomes, if it becomes one, and the name is among these of all tags.
fn taken_at(
    alloc: Global,
    empties: &Empties,
    names: &ByteSet<'_>,
    place: usize,
) -> Result<Option<Text>, NoMemory>
    requires place { place < length empties.now.events }
    requires names { (name : Bytes) →
        list_any (bytes_eq name) names.now ≡ has_tag_named empties.now.events name }
    ensures { IfOk result (λ taken. (event : _) → slice_get empties.now.events place ≡ Some event →
        taken ≡ taken_for empties.now.set empties.now.events event) }
{
    if !empties.becomes_tag(place) {
        return Ok(None);
    }
    let PlainEvent::Commit { mark, .. } = empties.nth(place) else {
        return Ok(None);
    };
    let name = tag_name(alloc, *mark)?;
    if names.has(name.as_slice()) {
        Ok(Some(name))
    } else {
        Ok(None)
    }
}

/// The first name of a new tag, in the order of the list, that a tag has already.
pub fn taken_name(
    alloc: Global,
    events: &Events,
    empties: &Empties,
) -> Result<Option<Text>, NoMemory>
    requires { empties.now.events ≡ events.now.list }
    ensures { IfOk result (λ taken.
        taken ≡ taken_name empties.now.set empties.now.events empties.now.events) }
{
    let names = tag_names(alloc, events)?;
    for place in 0..empties.count() {
        if let Some(name) = taken_at(alloc, empties, &names, place)? {
            return Ok(Some(name));
        }
    }
    Ok(None)
}
