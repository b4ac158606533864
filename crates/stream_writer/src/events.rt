//! Events at the end of a text.
ghost use Rattle.std.specs.Prelude.{◌≡◌, ◌++◌, ℕ, List, OnOk, codes, flat_map};
ghost use Rattle.plain_model.specs.Text.{
  alias_text,
  line,
  mark_text,
  event_text,
  reset_text,
  encoding_text,
  tagger_text,
  target_text,
};
ghost use Rattle.stream_writer.specs.Parts.{blob_text, body_text, head_text};

use crate::fields::{push_line, push_mark_line, push_people, push_signed_line};
use crate::marks::commit_mark;
use crate::operations::{push_ops, push_parents};
use branch_tips::Tips;
use event_arena::Events;
use plain_model::{CommitId, FileOp, Mark, NoMemory, PlainEvent, Shared, Signed, Text};
use stream_fields::write_data;

fn push_encoding(
    out: &mut Text,
    history: &Events,
    encoding: &Option<Shared<Text>>,
) -> Result<(), NoMemory>
    ensures { OnOk result (out.new ≡ out.old ++ encoding_text history.now.list encoding.now) }
{
    match encoding {
        Some(encoding) => push_line(out, b"encoding ", encoding.as_slice()),
        None => Ok(()),
    }
}

fn push_tagger(out: &mut Text, history: &Events, tagger: &Option<Signed>) -> Result<(), NoMemory>
    ensures { OnOk result (out.new ≡ out.old ++ tagger_text history.now.list tagger.now) }
{
    match tagger {
        Some(tagger) => push_signed_line(out, b"tagger ", tagger),
        None => Ok(()),
    }
}

// The line of a tag's mark, if it has one.
fn push_mark(out: &mut Text, mark: Option<Mark>) -> Result<(), NoMemory>
    ensures { OnOk result (out.new ≡ out.old ++ mark_text mark) }
{
    match mark {
        Some(mark) => push_mark_line(out, b"mark :", mark.number()),
        None => Ok(()),
    }
}

// The lines of a further mark of the commit that has the mark.
fn push_alias(out: &mut Text, mark: Mark, alias: Mark) -> Result<(), NoMemory>
    ensures { OnOk result (out.new ≡ out.old ++ alias_text mark alias) }
{
    out.push_all(b"alias\n")?;
    push_mark_line(out, b"mark :", alias.number())?;
    push_mark_line(out, b"to :", mark.number())
}

fn push_aliases(out: &mut Text, mark: Mark, aliases: &[Mark]) -> Result<(), NoMemory>
    ensures { OnOk result (out.new ≡ out.old ++ flat_map (alias_text mark) aliases.now) }
{
    for alias in aliases {
        push_alias(out, mark, *alias)?;
    }
    Ok(())
}

fn push_target(out: &mut Text, history: &Events, target: Option<CommitId>) -> Result<(), NoMemory>
    ensures { OnOk result (out.new ≡ out.old ++ target_text history.now.list target) }
{
    match target {
        Some(commit) => push_mark_line(out, b"from :", commit_mark(history, commit)),
        None => Ok(()),
    }
}

// A root on a branch that has a tip needs the branch reset before it.
fn push_reset(
    out: &mut Text,
    history: &Events,
    tips: &Tips,
    branch: &[u8],
    parents: &[CommitId],
) -> Result<(), NoMemory>
    ensures { OnOk result
        (out.new ≡ out.old ++ reset_text history.now.list tips.now branch.now parents.now) }
{
    if parents.is_empty() && tips.has(branch) {
        push_line(out, b"reset ", branch)
    } else {
        Ok(())
    }
}

// The lines of a commit up to its people.
fn push_head(
    out: &mut Text,
    spelled: &mut Text,
    branch: &[u8],
    mark: Mark,
    author: &Signed,
    committer: &Signed,
) -> Result<(), NoMemory>
    ensures { OnOk result
        (out.new ≡ out.old ++ head_text branch.now mark author.now committer.now) }
{
    out.push_all(b"commit ")?;
    out.push_all(branch)?;
    push_mark_line(out, b"\nmark :", mark.number())?;
    push_people(out, spelled, author, committer)
}

// The lines of a commit after its people, and the empty one.
fn push_body(
    out: &mut Text,
    history: &Events,
    encoding: &Option<Shared<Text>>,
    comment: &[u8],
    parents: &[CommitId],
    ops: &[FileOp],
) -> Result<(), NoMemory>
    ensures { OnOk result
        (out.new ≡ out.old ++ body_text history.now.list encoding.now comment.now parents.now ops.now) }
{
    push_encoding(out, history, encoding)?;
    write_data(comment, out)?;
    push_parents(out, history, parents)?;
    push_ops(out, history, ops)?;
    out.push(b'\n')
}

// The lines of a blob and its bytes.
fn push_blob(out: &mut Text, mark: Mark, bytes: &[u8]) -> Result<(), NoMemory>
    ensures { OnOk result (out.new ≡ out.old ++ blob_text mark bytes.now) }
{
    push_mark_line(out, b"blob\nmark :", mark.number())?;
    write_data(bytes, out)
}

/// Puts an event, where the branches are so before it. People are spelled in a text of its own, and what that holds doesn't count.
pub fn push_event(
    out: &mut Text,
    spelled: &mut Text,
    history: &Events,
    tips: &Tips,
    event: &PlainEvent,
) -> Result<(), NoMemory>
    ensures { OnOk result (out.new ≡ out.old ++ event_text history.now.list tips.now event.now) }
{
    match event {
        PlainEvent::Blob { mark, bytes, .. } => push_blob(out, *mark, bytes.as_slice()),
        PlainEvent::Commit {
            mark,
            branch,
            author,
            committer,
            encoding,
            comment,
            parents,
            ops,
            aliases,
            ..
        } => {
            push_reset(out, history, tips, branch.as_slice(), parents.as_slice())?;
            push_head(out, spelled, branch.as_slice(), *mark, author, committer)?;
            push_body(
                out,
                history,
                encoding,
                comment.as_slice(),
                parents.as_slice(),
                ops.as_slice(),
            )?;
            push_aliases(out, *mark, aliases.as_slice())
        }
        PlainEvent::Tag {
            name,
            target,
            tagger,
            comment,
            mark,
            ..
        } => {
            push_line(out, b"tag ", name.as_slice())?;
            push_mark(out, *mark)?;
            push_target(out, history, Some(*target))?;
            push_tagger(out, history, tagger)?;
            write_data(comment.as_slice(), out)
        }
        PlainEvent::Reset { branch, target, .. } => {
            push_line(out, b"reset ", branch.as_slice())?;
            push_target(out, history, *target)
        }
        PlainEvent::Pass { line, .. } => push_line(out, b"", line.as_slice()),
    }
}
