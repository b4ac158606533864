//! Lines of single events.
ghost use Rattle.std.specs.Prelude.{◌≡◌, ◌≤◌, ◌++◌, codes, IfSome, OnOk};
ghost use Rattle.civil_dates.specs.Dates.{date_text};
ghost use Rattle.history_laws.specs.Finding.{IsDated};
ghost use Rattle.listing.specs.Listings.{
  first_line,
  index_line,
  index_words,
  list_line,
  number_text,
  tag_line,
  tagged_text,
  target_text,
};
ghost use Rattle.plain_model.specs.Snapshots.{commit_mark};
ghost use Rattle.plain_model.specs.Text.{line, marked};
ghost use Rattle.plain_model.specs.declared.limit.TheConstants.{MAX_SECONDS};

use crate::fields::{push_ending, push_mark, push_number, push_tagged};
use crate::finding::mark_of;
use civil_dates::push_date;
use event_arena::Events;
use plain_model::{CommitId, Mark, NoMemory, PlainEvent, Signed, Text};

fn push_commit(
    number: u64,
    committer: &Signed,
    mark: Mark,
    comment: &[u8],
    into: &mut Text,
) -> Result<(), NoMemory>
    requires { committer.now.when.seconds ≤ MAX_SECONDS }
    ensures { OnOk result (into.new ≡ into.old ++ line (number_text number ++ codes " "
        ++ date_text committer.now.when.seconds ++ codes " " ++ marked mark
        ++ codes " " ++ first_line comment.now)) }
{
    push_number(number, into)?;
    into.push(b' ')?;
    push_date(committer.when.seconds, into)?;
    into.push(b' ')?;
    push_mark(mark.number(), into)?;
    push_ending(comment, into)
}

fn push_tag(
    number: u64,
    name: &[u8],
    tagger: &Option<Signed>,
    comment: &[u8],
    into: &mut Text,
) -> Result<(), NoMemory>
    requires { IfSome tagger.now (λ t. t.when.seconds ≤ MAX_SECONDS) }
    ensures { OnOk result (into.new ≡ into.old ++ line (number_text number ++ codes " "
        ++ tagged_text tagger.now ++ codes " " ++ name.now
        ++ codes " " ++ first_line comment.now)) }
{
    push_number(number, into)?;
    into.push(b' ')?;
    push_tagged(tagger, into)?;
    into.push(b' ')?;
    into.push_all(name)?;
    push_ending(comment, into)
}

/// Puts the line of a commit or a tag, and of other events nothing.
pub fn push_listed(number: u64, event: &PlainEvent, into: &mut Text) -> Result<(), NoMemory>
    requires { IsDated event.now }
    ensures { OnOk result (into.new ≡ into.old ++ list_line number event.now) }
{
    match event {
        PlainEvent::Commit {
            mark,
            committer,
            comment,
            ..
        } => push_commit(number, committer, *mark, comment.as_slice(), into),
        PlainEvent::Tag {
            name,
            tagger,
            comment,
            ..
        } => push_tag(number, name.as_slice(), tagger, comment.as_slice(), into),
        _ => Ok(()),
    }
}

// Puts the mark of the commit to which a branch is reset, or `-`.
fn push_target(events: &Events, target: Option<CommitId>, into: &mut Text) -> Result<(), NoMemory>
    ensures { OnOk result (into.new ≡ into.old ++ target_text events.now.list target) }
{
    match target {
        Some(commit) => push_mark(mark_of(events, commit), into),
        None => into.push(b'-'),
    }
}

// Puts a word, a mark, a space and a name.
fn push_named(word: &[u8], mark: u64, name: &[u8], into: &mut Text) -> Result<(), NoMemory>
    ensures { OnOk result
        (into.new ≡ into.old ++ (word.now ++ marked mark ++ codes " " ++ name.now)) }
{
    into.push_all(word)?;
    push_mark(mark, into)?;
    into.push(b' ')?;
    into.push_all(name)
}

fn push_reset(
    events: &Events,
    branch: &[u8],
    target: Option<CommitId>,
    into: &mut Text,
) -> Result<(), NoMemory>
    ensures { OnOk result (into.new ≡ into.old
        ++ (codes "reset " ++ target_text events.now.list target ++ codes " " ++ branch.now)) }
{
    into.push_all(b"reset ")?;
    push_target(events, target, into)?;
    into.push(b' ')?;
    into.push_all(branch)
}

fn push_blob(mark: Mark, into: &mut Text) -> Result<(), NoMemory>
    ensures { OnOk result (into.new ≡ into.old ++ (codes "blob " ++ marked mark)) }
{
    into.push_all(b"blob ")?;
    push_mark(mark.number(), into)
}

fn push_pass(line: &[u8], into: &mut Text) -> Result<(), NoMemory>
    ensures { OnOk result (into.new ≡ into.old ++ (codes "passthrough " ++ line.now)) }
{
    into.push_all(b"passthrough ")?;
    into.push_all(line)
}

// Puts an event's kind and what it is known by.
fn push_words(events: &Events, event: &PlainEvent, into: &mut Text) -> Result<(), NoMemory>
    ensures { OnOk result (into.new ≡ into.old ++ index_words events.now.list event.now) }
{
    match event {
        PlainEvent::Blob { mark, .. } => push_blob(*mark, into),
        PlainEvent::Commit { mark, branch, .. } => {
            push_named(b"commit ", mark.number(), branch.as_slice(), into)
        }
        PlainEvent::Tag { name, target, .. } => {
            push_named(b"tag ", mark_of(events, *target), name.as_slice(), into)
        }
        PlainEvent::Reset { branch, target, .. } => {
            push_reset(events, branch.as_slice(), *target, into)
        }
        PlainEvent::Pass { line, .. } => push_pass(line.as_slice(), into),
    }
}

/// Puts the line of an event of any kind.
pub fn push_indexed(
    events: &Events,
    number: u64,
    event: &PlainEvent,
    into: &mut Text,
) -> Result<(), NoMemory>
    ensures { OnOk result (into.new ≡ into.old ++ index_line events.now.list number event.now) }
{
    push_number(number, into)?;
    into.push(b' ')?;
    push_words(events, event, into)?;
    into.push(b'\n')
}

/// Puts the line of a branch, or of a tag, with a mark.
pub fn push_name(word: &[u8], name: &[u8], mark: u64, into: &mut Text) -> Result<(), NoMemory>
    ensures { OnOk result
        (into.new ≡ into.old ++ line (word.now ++ name.now ++ codes " " ++ marked mark)) }
{
    into.push_all(word)?;
    into.push_all(name)?;
    into.push(b' ')?;
    push_mark(mark, into)?;
    into.push(b'\n')
}

/// Puts the line of a tag among the names, and of other events nothing.
pub fn push_tag_name(events: &Events, event: &PlainEvent, into: &mut Text) -> Result<(), NoMemory>
    ensures { OnOk result (into.new ≡ into.old ++ tag_line events.now.list event.now) }
{
    match event {
        PlainEvent::Tag { name, target, .. } => {
            push_name(b"tag ", name.as_slice(), mark_of(events, *target), into)
        }
        _ => Ok(()),
    }
}
