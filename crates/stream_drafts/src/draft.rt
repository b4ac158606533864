//! Events whose mark may not be there yet.
ghost use Rattle.std.specs.Prelude.{◌≡◌, ◌≤◌, IfOk, option_map};
ghost use Rattle.plain_model.specs.declared.event.PlainEvent.TheVariants as plain;
ghost use Rattle.plain_model.specs.Lookups.{top_mark};
ghost use Rattle.stream_drafts.specs.Whole.{IsWhole};
ghost use Rattle.stream_drafts.specs.Events.{
  commit_of,
  event_of,
  event_without_mark,
  links_of,
  number_or_0,
  own_node,
};

use crate::whole::WholeEvent;
use plain_model::{
    BlobId, CommitId, FileOp, Items, MAX_MARK, Mark, MarkList, NoMemory, OpList, ParentList,
    PlainEvent, Shared, Signed, Text,
};
use std::alloc::Global;

/// What a commit has besides its id and its marks.
#[derive(Drop)]
pub struct CommitFields {
    pub branch: Shared<Text>,
    pub author: Signed,
    pub committer: Signed,
    pub encoding: Option<Shared<Text>>,
    pub comment: Text,
    pub parents: ParentList,
    pub ops: Shared<OpList>,
}

impl CommitFields {
    /// The commit with an id, a mark and aliases.
    pub fn into_event(self, id: CommitId, mark: Mark, aliases: MarkList) -> PlainEvent
        ensures { result ≡ plain.Commit id mark self.branch self.author self.committer
            self.encoding self.comment self.parents self.ops aliases }
    {
        PlainEvent::Commit {
            id,
            mark,
            branch: self.branch,
            author: self.author,
            committer: self.committer,
            encoding: self.encoding,
            comment: self.comment,
            parents: self.parents,
            ops: self.ops,
            aliases,
        }
    }
}

/// A blob or a commit that has no mark yet.
#[derive(Drop)]
pub enum Unmarked {
    Blob { id: BlobId, bytes: Shared<Text> },
    Commit { id: CommitId, fields: CommitFields },
}

/// An event, of which a blob or a commit may have no mark yet. It is made as soon as it can be, and then shared. A commit's
/// aliases are kept beside it.
#[derive(Drop)]
pub enum Draft {
    Whole(WholeEvent),
    Unmarked(Box<Unmarked>),
}

/// What the tree of a commit hangs on.
#[derive(Clone, Copy)]
pub struct Links<'a> {
    pub parents: &'a [CommitId],
    pub ops: &'a [FileOp],
}

fn number_or_0(mark: Option<Mark>) -> u64
    ensures value { result ≡ number_or_0 mark }
    ensures range { result ≤ MAX_MARK }
{
    match mark {
        Some(mark) => mark.number(),
        None => 0,
    }
}

impl Draft {
    /// An event that lacks nothing but a commit's aliases.
    pub fn whole(alloc: Global, event: PlainEvent) -> Result<Draft, NoMemory>
        requires { IsWhole event }
        ensures { IfOk result (λ draft. event_of draft ≡ event) }
    {
        Ok(Draft::Whole(WholeEvent::new(alloc, event)?))
    }

    fn unmarked(alloc: Global, unmarked: Unmarked) -> Result<Draft, NoMemory>
        ensures { IfOk result (λ draft. event_of draft ≡ event_without_mark unmarked) }
    {
        Ok(Draft::Unmarked(Box::new(alloc, unmarked)?))
    }

    /// A blob with a mark, if it has one.
    pub fn blob(
        alloc: Global,
        id: BlobId,
        mark: Option<Mark>,
        bytes: Shared<Text>,
    ) -> Result<Draft, NoMemory>
        ensures { IfOk result (λ draft. event_of draft ≡ plain.Blob id (number_or_0 mark) bytes) }
    {
        match mark {
            Some(mark) => {
                prove!(mark.number() >= 1 && mark.number() <= MAX_MARK);
                Draft::whole(alloc, PlainEvent::Blob { id, mark, bytes })
            }
            None => Draft::unmarked(alloc, Unmarked::Blob { id, bytes }),
        }
    }

    /// A commit with a mark, if it has one.
    pub fn commit(
        alloc: Global,
        id: CommitId,
        mark: Option<Mark>,
        fields: CommitFields,
    ) -> Result<Draft, NoMemory>
        ensures { IfOk result (λ draft. event_of draft ≡ commit_of id mark fields) }
    {
        match mark {
            Some(mark) => {
                prove!(mark.number() >= 1 && mark.number() <= MAX_MARK);
                let aliases = Items::empty(alloc);
                Draft::whole(alloc, fields.into_event(id, mark, aliases))
            }
            None => Draft::unmarked(alloc, Unmarked::Commit { id, fields }),
        }
    }

    /// What the tree of the commit hangs on, if it is one.
    pub fn links(&self) -> Option<Links<'_>>
        ensures { option_map (λ links. (links.parents.now, links.ops.now)) result
            ≡ option_map links_of (own_node (event_of self.now)) }
    {
        match self {
            Draft::Whole(event) => match event.as_ref() {
                PlainEvent::Commit { parents, ops, .. } => Some(Links {
                    parents: parents.as_slice(),
                    ops: ops.as_slice(),
                }),
                _ => None,
            },
            Draft::Unmarked(unmarked) => match unmarked.as_ref() {
                Unmarked::Commit { fields, .. } => Some(Links {
                    parents: fields.parents.as_slice(),
                    ops: fields.ops.as_slice(),
                }),
                Unmarked::Blob { .. } => None,
            },
        }
    }

    /// The mark, or 0.
    pub fn number(&self) -> u64
        ensures value { result ≡ top_mark (event_of self.now) }
        ensures range { result ≤ MAX_MARK }
    {
        let Draft::Whole(event) = self else {
            return 0;
        };
        match event.as_ref() {
            PlainEvent::Blob { mark, .. } => mark.number(),
            PlainEvent::Commit { mark, .. } => mark.number(),
            PlainEvent::Tag { mark, .. } => number_or_0(*mark),
            _ => 0,
        }
    }
}
