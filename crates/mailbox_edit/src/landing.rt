//! A message that was judged, with the event that it is for.
ghost use Rattle.std.specs.Prelude.{◌≡◌, ◌++◌, ◌≤◌, length, OnOk, option_map};
ghost use Rattle.std.specs.List.{AllByRecursion};
ghost use Rattle.mailbox_edit.specs.Landings.{IsLandable, id_meant, landings_on};
ghost use Rattle.mailbox_laws.specs.Boxes.{lines_in};
ghost use Rattle.mailbox_laws.specs.Landing.{meant_by};
ghost use Rattle.mailbox_reader.specs.FirstTags.{AreFirst};
ghost use Rattle.mailbox_reader.specs.Reading.{value_of};

use event_arena::Events;
use mailbox_reader::{FirstTags, Said, meant};
use plain_model::{AnyId, NoMemory};

/// A message with the event that it is for: what its headers say, and its body, which is so many lines from the beginning
/// of these bytes.
#[derive(Clone, Copy)]
pub struct Landing<'a> {
    pub id: AnyId,
    pub said: Said<'a>,
    pub body: &'a [u8],
    pub count: u64,
}

// The event that a message is for.
fn id_meant(events: &Events, tags: &FirstTags, said: &Said<'_>) -> Option<AnyId>
    requires { AreFirst events.now.list tags.now }
    ensures { result ≡ id_meant events.now.list said.now }
{
    match meant(events, tags, said) {
        Some(event) => Some(event.id()),
        None => None,
    }
}

/// Notes a message for the event that its headers name.
pub fn note_landing<'a>(
    events: &Events,
    tags: &FirstTags,
    said: Said<'a>,
    body: &'a [u8],
    count: u64,
    landings: &mut Vec<Landing<'a>>,
) -> Result<(), NoMemory>
    requires tags { AreFirst events.now.list tags.now }
    requires fits { count ≤ length (lines_in body.now) }
    requires landable { AllByRecursion (IsLandable events.now.list) landings.old.items }
    ensures noted { OnOk result (landings.new.items ≡ landings.old.items
        ++ landings_on (id_meant events.now.list said.entry) said.entry body.entry count) }
    ensures landable { OnOk result (AllByRecursion (IsLandable events.now.list) landings.new.items) }
{
    if let Some(id) = id_meant(events, tags, &said) {
        let landing = Landing {
            id,
            said,
            body,
            count,
        };
        if landings.push(landing).is_err() {
            return Err(NoMemory);
        }
    }
    Ok(())
}
