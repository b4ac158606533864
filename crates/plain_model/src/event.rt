//! Events of a history.
ghost use Rattle.std.specs.Prelude.{◌≡◌, ◌∷◌, ◌++◌, [], IfOk, OnErr, OnOk};

use crate::id::{AnyId, BlobId, CommitId, PassId, ResetId, TagId};
use crate::list::{Copied, Items, NoMemory, Text};
use crate::mark::Mark;
use crate::operation::{FileOp, OpList};
use crate::person::Signed;
use crate::shared::Shared;
use std::alloc::Global;
use std::marker::Model;

/// Marks, in order.
pub type MarkList = Items<Mark>;

/// The parents of a commit, the first parent first.
pub type ParentList = Items<CommitId>;

/// An event of a history. (git-fast-import, `blob`, `commit`, `tag`, `reset`.)
#[derive(Drop)]
pub enum PlainEvent {
    /// The bytes of a file.
    Blob {
        id: BlobId,
        mark: Mark,
        bytes: Shared<Text>,
    },
    /// A commit on a branch; its tree is that of its first parent, changed by its operations.
    Commit {
        id: CommitId,
        mark: Mark,
        branch: Shared<Text>,
        author: Signed,
        committer: Signed,
        encoding: Option<Shared<Text>>,
        comment: Text,
        parents: ParentList,
        ops: Shared<OpList>,
        /// Its further marks. (git-fast-import, `alias`.)
        aliases: MarkList,
    },
    /// An annotated tag of a commit.
    Tag {
        id: TagId,
        name: Text,
        target: CommitId,
        tagger: Option<Signed>,
        comment: Text,
        mark: Option<Mark>,
    },
    /// A branch that is set to a commit, or removed.
    Reset {
        id: ResetId,
        branch: Shared<Text>,
        target: Option<CommitId>,
    },
    /// A line that is passed through as it is: `checkpoint`, `progress`, `feature` or `option`. (own)
    Pass {
        id: PassId,
        line: Text,
    },
}

/// A history: events, each after those that it refers to. They are shared from the first on, so that whoever keeps them
/// copies none of them.
#[derive(Drop)]
pub struct EventList {
    rows: Items<Shared<PlainEvent>>,
}

impl Model for EventList {
    ghost use Rattle.std.specs.Prelude.{List};
    ghost use Rattle.plain_model.specs.declared.event.PlainEvent.{PlainEvent};

    ghost Value = { List PlainEvent };

    ghost view = { λ l. l.rows };
}

impl EventList {
    /// The history without events. It takes no memory.
    pub fn empty(alloc: Global) -> EventList
        ensures { result ≡ [] }
    {
        EventList {
            rows: Items::empty(alloc),
        }
    }

    /// The history without events, in the form of the calls that can want memory.
    pub fn new(alloc: Global) -> Result<EventList, NoMemory>
        ensures { IfOk result (λ made. made ≡ []) }
    {
        Ok(EventList::empty(alloc))
    }

    /// The history of these events.
    pub fn of_rows(rows: Items<Shared<PlainEvent>>) -> EventList
        ensures { result ≡ rows }
    {
        EventList { rows }
    }

    /// Puts an event at the end; a refused call leaves the list.
    pub fn push(&mut self, event: PlainEvent) -> Result<(), NoMemory>
        ensures ok { OnOk result (self.new ≡ self.old ++ event ∷ []) }
        ensures err { OnErr result (self.new ≡ self.old) }
    {
        let row = Shared::new(self.rows.alloc(), event)?;
        self.rows.push(row)
    }

    pub fn as_slice(&self) -> &[Shared<PlainEvent>]
        ensures { result.now ≡ self.now }
    {
        self.rows.as_slice()
    }

    /// The events themselves, taken out of the list.
    pub fn into_rows(self) -> Vec<Shared<PlainEvent>>
        ensures { result.items ≡ self }
    {
        self.rows.into_items()
    }
}

impl PlainEvent {
    ghost use Rattle.plain_model.specs.Lookups.{commit_id, event_ops, event_parents, id_of};

    /// The event's id, with its kind.
    pub fn id(&self) -> AnyId
        ensures { result ≡ id_of self.now }
    {
        match self {
            PlainEvent::Blob { id, .. } => AnyId::Blob(*id),
            PlainEvent::Commit { id, .. } => AnyId::Commit(*id),
            PlainEvent::Tag { id, .. } => AnyId::Tag(*id),
            PlainEvent::Reset { id, .. } => AnyId::Reset(*id),
            PlainEvent::Pass { id, .. } => AnyId::Pass(*id),
        }
    }

    /// The id of a commit; none where the event is no commit.
    pub fn commit_id(&self) -> Option<CommitId>
        ensures { result ≡ commit_id self.now }
    {
        match self {
            PlainEvent::Commit { id, .. } => Some(*id),
            _ => None,
        }
    }

    /// The parents of a commit; none where the event is no commit.
    pub fn parents(&self) -> &[CommitId]
        ensures { result.now ≡ event_parents self.now }
    {
        match self {
            PlainEvent::Commit { parents, .. } => parents.as_slice(),
            _ => &[],
        }
    }

    /// The operations of a commit; none where the event is no commit.
    pub fn ops(&self) -> &[FileOp]
        ensures { result.now ≡ event_ops self.now }
    {
        match self {
            PlainEvent::Commit { ops, .. } => ops.as_slice(),
            _ => &[],
        }
    }
}

// Equal values of who made a commit and where.
fn copied_front(
    alloc: Global,
    branch: &Shared<Text>,
    author: &Signed,
    committer: &Signed,
    encoding: &Option<Shared<Text>>,
) -> Result<(Shared<Text>, Signed, Signed, Option<Shared<Text>>), NoMemory>
    ensures { IfOk result (λ made. made ≡ (branch.now, author.now, committer.now, encoding.now)) }
{
    Ok((
        branch.copied(alloc)?,
        author.copied(alloc)?,
        committer.copied(alloc)?,
        encoding.copied(alloc)?,
    ))
}

// Equal values of what a commit says and does.
fn copied_body(
    alloc: Global,
    comment: &Text,
    parents: &ParentList,
    ops: &Shared<OpList>,
    aliases: &MarkList,
) -> Result<(Text, ParentList, Shared<OpList>, MarkList), NoMemory>
    ensures { IfOk result (λ made. made ≡ (comment.now, parents.now, ops.now, aliases.now)) }
{
    Ok((
        comment.copied(alloc)?,
        parents.copied(alloc)?,
        ops.copied(alloc)?,
        aliases.copied(alloc)?,
    ))
}

impl Copied for PlainEvent {
    fn copied(&self, alloc: Global) -> Result<PlainEvent, NoMemory> {
        match self {
            PlainEvent::Blob { id, mark, bytes } => Ok(PlainEvent::Blob {
                id: *id,
                mark: *mark,
                bytes: bytes.copied(alloc)?,
            }),
            PlainEvent::Commit {
                id,
                mark,
                branch,
                author,
                committer,
                encoding,
                comment,
                parents,
                ops,
                aliases,
            } => {
                let (branch, author, committer, encoding) = copied_front(
                    alloc, branch, author, committer, encoding,
                )?;
                let (comment, parents, ops, aliases) = copied_body(
                    alloc, comment, parents, ops, aliases,
                )?;
                Ok(PlainEvent::Commit {
                    id: *id,
                    mark: *mark,
                    branch,
                    author,
                    committer,
                    encoding,
                    comment,
                    parents,
                    ops,
                    aliases,
                })
            }
            PlainEvent::Tag {
                id,
                name,
                target,
                tagger,
                comment,
                mark,
            } => Ok(PlainEvent::Tag {
                id: *id,
                name: name.copied(alloc)?,
                target: *target,
                tagger: tagger.copied(alloc)?,
                comment: comment.copied(alloc)?,
                mark: *mark,
            }),
            PlainEvent::Reset { id, branch, target } => Ok(PlainEvent::Reset {
                id: *id,
                branch: branch.copied(alloc)?,
                target: *target,
            }),
            PlainEvent::Pass { id, line } => Ok(PlainEvent::Pass {
                id: *id,
                line: line.copied(alloc)?,
            }),
        }
    }
}
