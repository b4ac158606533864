//! The box of chosen events.
ghost use Rattle.std.specs.Prelude.{◌≡◌, ◌++◌, [], OnOk};
ghost use Rattle.listing.specs.Listings.{line_of};
ghost use Rattle.mailbox_laws.specs.Boxes.{rule};
ghost use Rattle.mailbox_laws.specs.Written.{body_text, box_of, commit_letter, letter_text, message_text, tag_letter};
ghost use Rattle.plain_model.specs.Lookups.{find_event, number_of};
ghost use Rattle.plain_model.specs.Text.{line};

use crate::fields::{
    push_check, push_encoding, push_header, push_marked, push_numbered, push_parents, push_signed,
    push_tagger,
};
use event_arena::{Events, Role};
use listing::mark_of;
use mailbox_lines::{push_body, rule};
use plain_model::{AnyId, CommitId, Mark, NoMemory, PlainEvent, Shared, Signed, Text};

fn push_rule(into: &mut Text) -> Result<(), NoMemory>
    ensures { OnOk result (into.new ≡ into.old ++ line rule) }
{
    into.push_all(rule())?;
    into.push(b'\n')
}

// Puts an empty line and the body.
fn push_comment(comment: &[u8], into: &mut Text) -> Result<(), NoMemory>
    ensures { OnOk result (into.new ≡ into.old ++ (line [] ++ body_text comment.now)) }
{
    into.push(b'\n')?;
    push_body(comment, into)
}

fn push_commit(
    events: &Events,
    number: u64,
    mark: Mark,
    branch: &[u8],
    author: &Signed,
    committer: &Signed,
    encoding: &Option<Shared<Text>>,
    comment: &[u8],
    parents: &[CommitId],
    into: &mut Text,
) -> Result<(), NoMemory>
    ensures { OnOk result (into.new ≡ into.old ++ letter_text (commit_letter events.now.list number
        mark branch.now author.now committer.now encoding.now comment.now parents.now)) }
{
    push_rule(into)?;
    push_numbered(b"Event-Number", number, into)?;
    push_marked(b"Event-Mark", mark.number(), into)?;
    push_header(b"Branch", branch, into)?;
    push_parents(events, parents, into)?;
    push_signed(Role::Author, author, into)?;
    push_signed(Role::Committer, committer, into)?;
    push_encoding(encoding, into)?;
    push_check(comment, into)?;
    push_comment(comment, into)
}

fn push_tag(
    events: &Events,
    number: u64,
    name: &[u8],
    target: CommitId,
    tagger: &Option<Signed>,
    comment: &[u8],
    into: &mut Text,
) -> Result<(), NoMemory>
    ensures { OnOk result (into.new ≡ into.old ++ letter_text (tag_letter events.now.list number
        name.now target tagger.now comment.now)) }
{
    push_rule(into)?;
    push_numbered(b"Event-Number", number, into)?;
    push_header(b"Tag-Name", name, into)?;
    push_marked(b"Target", mark_of(events, target), into)?;
    push_tagger(tagger, into)?;
    push_check(comment, into)?;
    push_comment(comment, into)
}

// Puts the message of a commit or a tag, and of other events nothing.
fn push_message(
    events: &Events,
    number: u64,
    event: &PlainEvent,
    into: &mut Text,
) -> Result<(), NoMemory>
    ensures { OnOk result (into.new ≡ into.old ++ message_text events.now.list number event.now) }
{
    match event {
        PlainEvent::Commit {
            mark,
            branch,
            author,
            committer,
            encoding,
            comment,
            parents,
            ..
        } => push_commit(
            events,
            number,
            *mark,
            branch.as_slice(),
            author,
            committer,
            encoding,
            comment.as_slice(),
            parents.as_slice(),
            into,
        ),
        PlainEvent::Tag {
            name,
            target,
            tagger,
            comment,
            ..
        } => push_tag(
            events,
            number,
            name.as_slice(),
            *target,
            tagger,
            comment.as_slice(),
            into,
        ),
        _ => Ok(()),
    }
}

fn push_chosen(events: &Events, id: &AnyId, into: &mut Text) -> Result<(), NoMemory>
    ensures { let all = events.now.list in
        OnOk result (into.new ≡
        into.old ++ line_of (message_text all) (number_of id.now all) (find_event id.now all)) }
{
    let Some(number) = events.number_of(*id) else {
        return Ok(());
    };
    match events.event(*id) {
        Some(event) => push_message(events, number as u64, event, into),
        None => Ok(()),
    }
}

/// Puts a message for each commit and each tag among the given events, in the order of the ids: a line of 78 hyphens, the
/// headers, an empty line, and the comment. Out of memory, a part of it may be there. (reposurgeon manual, `msgout`; the
/// form: own.)
#[tactic(auto, unfolding(mailbox_laws::specs::Written::box_of))]
pub fn msgout(events: &Events, set: &[AnyId], into: &mut Text) -> Result<(), NoMemory>
    ensures { OnOk result (into.new ≡ into.old ++ box_of events.now.list set.now) }
{
    for id in set {
        push_chosen(events, id, into)?;
    }
    Ok(())
}
