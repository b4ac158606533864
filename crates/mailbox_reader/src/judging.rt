//! What is wrong with a message.
ghost use Rattle.std.specs.Prelude.{◌≡◌, ◌+◌, ◌++◌, ℕ, List, is_some, option_map};
ghost use Rattle.plain_model.specs.declared.fault.Fault.TheVariants as fault;
ghost use Rattle.plain_model.specs.Parts.{begins};
ghost use Rattle.mailbox_laws.specs.Boxes.{Message};
ghost use Rattle.mailbox_laws.specs.Landing.{
  check_faults_of,
  comment_of,
  commit_meant,
  fault_unless,
  faults_of,
  is_either,
  is_identity,
  is_moment,
  lowest,
  meant_by,
  tag_meant,
  value_faults,
};
ghost use Rattle.mailbox_reader.specs.FirstTags.{AreFirst};
ghost use Rattle.mailbox_reader.specs.Judged.{IsRead, commit_at};
ghost use Rattle.mailbox_reader.specs.Reading.{value_of};

use crate::faults::lower;
use crate::forms::identity_in;
use crate::reading::{Header, Said};
use crate::tags::FirstTags;
use bstr::ByteSlice;
use event_arena::Events;
use plain_model::{AnyId, Fault, PlainEvent};
use stream_fields::{moment, read_mark};

// Where a value isn't a person.
#[tactic(auto, unfolding(mailbox_laws::specs::Landing::lowest))]
fn wrong_who(header: Option<Header<'_>>) -> Option<Fault>
    ensures { result ≡ lowest (value_faults is_identity fault.BadMessage (value_of header.entry)) }
{
    match header {
        Some(header) => {
            if identity_in(header.value).is_some() {
                None
            } else {
                Some(Fault::BadMessage { line: header.line })
            }
        }
        None => None,
    }
}

// Where a value isn't a date.
#[tactic(auto, unfolding(mailbox_laws::specs::Landing::lowest))]
fn wrong_when(header: Option<Header<'_>>) -> Option<Fault>
    ensures { result ≡ lowest (value_faults is_moment fault.BadMessage (value_of header.entry)) }
{
    match header {
        Some(header) => {
            if moment(header.value).is_some() {
                None
            } else {
                Some(Fault::BadMessage { line: header.line })
            }
        }
        None => None,
    }
}

// Values of a role that aren't of their forms.
fn wrong_role(who: Option<Header<'_>>, when: Option<Header<'_>>) -> Option<Fault>
    ensures { result ≡ lowest (value_faults is_identity fault.BadMessage (value_of who.entry)
        ++ value_faults is_moment fault.BadMessage (value_of when.entry)) }
{
    lower(wrong_who(who), wrong_when(when))
}

// Neither a mark nor a name, or both.
#[tactic(auto, unfolding(mailbox_laws::specs::Landing::lowest))]
fn wrong_choice(line: u64, said: &Said<'_>) -> Option<Fault>
    ensures { result ≡ lowest (fault_unless (is_either (value_of said.now.mark) (value_of said.now.name)) (fault.BadMessage line)) }
{
    match (said.mark, said.name) {
        (Some(_), None) => None,
        (None, Some(_)) => None,
        _ => Some(Fault::BadMessage { line }),
    }
}

// The box ends too early.
#[tactic(auto, unfolding(mailbox_laws::specs::Landing::lowest))]
fn wrong_end(end: u64, has_body: bool) -> Option<Fault>
    ensures { result ≡ lowest (fault_unless has_body (fault.BadMessage end)) }
{
    if has_body {
        None
    } else {
        Some(Fault::BadMessage { line: end })
    }
}

// Whether the text begins so.
fn is_beginning(value: &[u8], text: &[u8]) -> bool
    ensures { result ≡ begins value.now text.now }
{
    text.starts_with_str(value)
}

// The event, if the id is a commit's.
fn commit_at(events: &Events, id: AnyId) -> Option<&PlainEvent>
    ensures { option_map (λ e. e.now) result ≡ commit_at events.now.list id }
{
    match id {
        AnyId::Commit(_) => events.event(id),
        _ => None,
    }
}

// The commit that has a mark.
fn commit_meant<'e>(events: &'e Events, value: &[u8]) -> Option<&'e PlainEvent>
    ensures { option_map (λ e. e.now) result ≡ commit_meant events.now.list value.now }
{
    match read_mark(value) {
        Ok(mark) => match events.by_mark(mark) {
            Some(id) => commit_at(events, id),
            None => None,
        },
        Err(_) => None,
    }
}

#[tactic(auto, unfolding(mailbox_laws::specs::Landing::lowest))]
fn wrong_mark(events: &Events, header: Option<Header<'_>>) -> Option<Fault>
    ensures { result ≡ lowest (value_faults (λ value. is_some (commit_meant events.now.list value))
        fault.NoSuchTarget (value_of header.entry)) }
{
    match header {
        Some(header) => {
            if commit_meant(events, header.value).is_some() {
                None
            } else {
                Some(Fault::NoSuchTarget { line: header.line })
            }
        }
        None => None,
    }
}

#[tactic(auto, unfolding(mailbox_laws::specs::Landing::lowest))]
fn wrong_name(events: &Events, tags: &FirstTags, header: Option<Header<'_>>) -> Option<Fault>
    requires { AreFirst events.now.list tags.now }
    ensures { result ≡ lowest (value_faults (λ value. is_some (tag_meant events.now.list value))
        fault.NoSuchTarget (value_of header.entry)) }
{
    match header {
        Some(header) => {
            if tags.tag(events, header.value).is_some() {
                None
            } else {
                Some(Fault::NoSuchTarget { line: header.line })
            }
        }
        None => None,
    }
}

/// The event that a message is for.
pub fn meant<'e>(events: &'e Events, tags: &FirstTags, said: &Said<'_>) -> Option<&'e PlainEvent>
    requires { AreFirst events.now.list tags.now }
    ensures { option_map (λ e. e.now) result ≡ meant_by events.now.list (value_of said.now.mark) (value_of said.now.name) }
{
    match (said.mark, said.name) {
        (Some(mark), None) => commit_meant(events, mark.value),
        (None, Some(name)) => tags.tag(events, name.value),
        _ => None,
    }
}

fn comment_before(event: &PlainEvent) -> &[u8]
    ensures { result.now ≡ comment_of event.now }
{
    match event {
        PlainEvent::Commit { comment, .. } => comment.as_slice(),
        PlainEvent::Tag { comment, .. } => comment.as_slice(),
        _ => &[],
    }
}

#[tactic(auto, unfolding(mailbox_laws::specs::Landing::lowest))]
fn wrong_check(event: Option<&PlainEvent>, check: Option<Header<'_>>) -> Option<Fault>
    ensures { result ≡ lowest (check_faults_of (option_map (λ e. e.now) event.entry) (value_of check.entry)) }
{
    match (event, check) {
        (Some(event), Some(check)) => {
            if is_beginning(check.value, comment_before(event)) {
                None
            } else {
                Some(Fault::CheckText { line: check.line })
            }
        }
        _ => None,
    }
}

/// The fault of a message at its lowest line: the number of its line of hyphens, what its headers say, the first header line that is
/// none, the number of the line after its header lines, and whether an empty line is there.
pub fn wrong_message(
    events: &Events,
    tags: &FirstTags,
    line: u64,
    said: &Said<'_>,
    bad: Option<Fault>,
    end: u64,
    has_body: bool,
) -> Option<Fault>
    requires { AreFirst events.now.list tags.now }
    ensures { (m : Message) → IsRead m line said.now bad end has_body → result ≡ lowest (faults_of events.now.list m) }
{
    let choice = lower(wrong_choice(line, said), bad);
    let author = lower(choice, wrong_role(said.author, said.author_date));
    let committer = lower(author, wrong_role(said.committer, said.committer_date));
    let tagger = lower(committer, wrong_role(said.tagger, said.tagger_date));
    let ended = lower(tagger, wrong_end(end, has_body));
    let meaning = lower(
        wrong_mark(events, said.mark),
        wrong_name(events, tags, said.name),
    );
    let found = lower(ended, meaning);
    lower(found, wrong_check(meant(events, tags, said), said.check))
}
