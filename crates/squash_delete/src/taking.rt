//! The operations and the comment of a commit that takes over those of others.
ghost use Rattle.std.specs.Prelude.{◌≡◌, ◌++◌, ◌∷◌, flat_map, map, IfOk, OnOk};
ghost use Rattle.manifest_cache.specs.Walks.{ops_at};
ghost use Rattle.squash_delete.specs.Taking.{comment_taken, event_comment, is_nothing, ops_taken};
ghost use Rattle.squash_laws.specs.Comments.{comment_of, joined, joined_two};

use event_arena::EventTable;
use plain_model::{AnyId, CommitId, FileOp, NoMemory, OpList, PlainEvent, Text};
use plan_steps::push_ops;
use std::alloc::Global;
use std::marker::Model;

// The comment of an event; none where it is no commit.
fn event_comment(event: &PlainEvent) -> &[u8]
    ensures { result.now ≡ event_comment event.now }
{
    match event {
        PlainEvent::Commit { comment, .. } => comment.as_slice(),
        _ => &[],
    }
}

// The comment of a commit.
fn comment_at(list: &EventTable, commit: CommitId) -> &[u8]
    ensures { result.now ≡ comment_of list.now commit }
{
    match list.event(AnyId::Commit(commit)) {
        Some(event) => event_comment(event),
        None => &[],
    }
}

// The operations of a commit.
fn ops_at(list: &EventTable, commit: CommitId) -> &[FileOp]
    ensures { result.now ≡ ops_at list.now commit }
{
    match list.event(AnyId::Commit(commit)) {
        Some(event) => event.ops(),
        None => &[],
    }
}

// Puts copies of the operations of commits at the end.
fn push_ops_of(list: &EventTable, commits: &[CommitId], ops: &mut OpList) -> Result<(), NoMemory>
    ensures { OnOk result (ops.new ≡ ops.old ++ flat_map (ops_at list.now) commits.now) }
{
    for commit in commits {
        push_ops(ops, ops_at(list, *commit))?;
    }
    Ok(())
}

/// What a commit takes over: whether it begins without files, and the commits whose operations and comments come before
/// its own, and after.
#[derive(Drop)]
pub struct Taking<'a> {
    anew: bool,
    before: &'a [CommitId],
    after: &'a [CommitId],
}

impl<'a> Model for Taking<'a> {
    ghost use Rattle.squash_delete.specs.Taking.{Taking};

    ghost Value = { Taking };

    ghost view = { λ t. record { anew = t.anew; before = t.before.now; after = t.after.now } };
}

impl<'a> Taking<'a> {
    pub fn new(anew: bool, before: &'a [CommitId], after: &'a [CommitId]) -> Taking<'a>
        ensures anew { result.anew ≡ anew }
        ensures before { result.before ≡ before.now }
        ensures after { result.after ≡ after.now }
    {
        Taking {
            anew,
            before,
            after,
        }
    }

    /// Whether a commit takes over nothing.
    pub fn is_nothing(&self) -> bool
        ensures { result ≡ is_nothing self.now }
    {
        !self.anew && self.before.is_empty() && self.after.is_empty()
    }
}

/// The operations that it has then.
pub fn ops_taken(
    alloc: Global,
    list: &EventTable,
    taking: &Taking,
    own: &[FileOp],
) -> Result<OpList, NoMemory>
    ensures { IfOk result (λ ops. ops ≡ ops_taken list.now taking.now own.now) }
{
    let mut ops = OpList::empty(alloc);
    if taking.anew {
        ops.push(FileOp::DeleteAll)?;
    }
    push_ops_of(list, taking.before, &mut ops)?;
    push_ops(&mut ops, own)?;
    push_ops_of(list, taking.after, &mut ops)?;
    Ok(ops)
}

// Joins a comment to those before it.
fn join(text: &mut Text, comment: &[u8]) -> Result<(), NoMemory>
    ensures { OnOk result (text.new ≡ joined_two text.old comment.now) }
{
    if comment.is_empty() {
        return Ok(());
    }
    if !text.as_slice().is_empty() {
        text.push(b'\n')?;
    }
    text.push_all(comment)
}

// Joins the comments of commits to those before them.
fn join_all(list: &EventTable, commits: &[CommitId], text: &mut Text) -> Result<(), NoMemory>
    ensures { OnOk result (text.new
        ≡ joined (text.old ∷ map (comment_of list.now) commits.now)) }
{
    for commit in commits {
        join(text, comment_at(list, *commit))?;
    }
    Ok(())
}

/// The comment that it has then.
pub fn comment_taken(
    alloc: Global,
    list: &EventTable,
    taking: &Taking,
    own: &[u8],
) -> Result<Text, NoMemory>
    ensures { IfOk result (λ comment. comment ≡ comment_taken list.now taking.now own.now) }
{
    let mut comment = Text::empty(alloc);
    join_all(list, taking.before, &mut comment)?;
    join(&mut comment, own)?;
    join_all(list, taking.after, &mut comment)?;
    Ok(comment)
}
