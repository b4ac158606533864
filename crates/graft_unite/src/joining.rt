//! One event of a part, joined to a list.
ghost use Rattle.std.specs.Prelude.{◌≡◌, ◌≤◌, ◌+◌, flat_map, length, map, IfOk};
ghost use Rattle.graft_laws.specs.Joining.{Joining, branch_of, joined_event, root_ops, tag_of};
ghost use Rattle.graft_unite.specs.Numbering.{AreThere, new_blob, new_commit};
ghost use Rattle.graft_unite.specs.Placed.{new_ops, new_parents, replaced};
ghost use Rattle.plain_model.specs.Lookups.{event_marks, op_blobs, referents_of};
ghost use Rattle.plain_model.specs.declared.limit.TheConstants.{MAX_MARK};
ghost use Rattle.renumbering.specs.Renumbered.{marked_from};
ghost use Rattle.plain_model.specs.declared.id.AnyId.TheVariants.{Commit};
ghost use Rattle.shown_laws.specs.AsWritten.{renamed};

use crate::marking::marks_from;
use crate::names::{prefixed_branch, prefixed_tag};
use crate::numbers::Numbers;
use crate::renaming::{new_ops, new_parents};
use plain_model::{
    BlobId, CommitId, Copied, FileOp, Mark, NoMemory, OpList, ParentList, PassId, PlainEvent,
    ResetId, Shared, TagId, Text,
};
use std::alloc::Global;

/// How the events of a part are joined to a list.
pub trait Join {
    ghost use Rattle.std.specs.Prelude.{Bool};
    ghost use Rattle.plain_model.specs.Paths.{Bytes};
    ghost use Rattle.graft_laws.specs.Joining.{Joining};

    ghost joining: { Self → Joining };

    ghost clashing: { Self → Bytes → Bool };

    /// The name under which others are put.
    fn prefix(&self) -> &[u8]
        ensures { result.now ≡ (joining self.now).prefix };

    /// Whether a name is put under it.
    fn is_taken(&self, name: &[u8]) -> bool
        ensures { result ≡ (joining self.now).is_taken name.now };

    /// Whether a new name may not be given, since it is in use.
    fn clashes(&self, name: &[u8]) -> bool
        ensures { result ≡ clashing self.now name.now };

    /// The parents of a root whose committer has this second.
    fn parents(&self, alloc: Global, seconds: u64) -> Result<ParentList, NoMemory>
        ensures { IfOk result (λ parents. parents ≡ (joining self.now).parents seconds) };

    /// Whether a root that gets a parent begins without files.
    fn prunes(&self) -> bool
        ensures { result ≡ (joining self.now).prune };
}

// What a branch is called there.
fn branch_of<J: Join>(
    alloc: Global,
    how: &J,
    branch: &Shared<Text>,
) -> Result<Shared<Text>, NoMemory>
    ensures { IfOk result (λ made. made ≡ branch_of (J.joining how.now) branch.now) }
{
    let bytes = branch.as_ref().as_slice();
    if how.is_taken(bytes) {
        Shared::new(alloc, prefixed_branch(alloc, how.prefix(), bytes)?)
    } else {
        branch.share()
    }
}

// What a tag is called there.
fn tag_of<J: Join>(alloc: Global, how: &J, name: &Text) -> Result<Text, NoMemory>
    ensures { IfOk result (λ made. made ≡ tag_of (J.joining how.now) name.now) }
{
    let bytes = name.as_slice();
    if how.is_taken(bytes) {
        prefixed_tag(alloc, how.prefix(), bytes)
    } else {
        name.copied(alloc)
    }
}

// A root's operations behind its new parents.
fn root_ops<J: Join>(how: &J, parents: &[CommitId], ops: OpList) -> Result<OpList, NoMemory>
    ensures { IfOk result (λ made. made ≡ root_ops (J.joining how.now) parents.now ops) }
{
    let mut ops = ops;
    if !parents.is_empty() && how.prunes() {
        ops.push_front(FileOp::DeleteAll)?;
    }
    Ok(ops)
}

// The parents and the operations that a commit has there.
fn placed<J: Join>(
    alloc: Global,
    how: &J,
    numbers: &Numbers,
    parents: &[CommitId],
    ops: &[FileOp],
    seconds: u64,
) -> Result<(ParentList, OpList), NoMemory>
    requires parents { AreThere numbers.now.part (map Commit parents.now) }
    requires ops { AreThere numbers.now.part (flat_map op_blobs ops.now) }
    ensures parents { IfOk result (λ made.
        made.0 ≡ new_parents (J.joining how.now) numbers.now parents.now seconds) }
    ensures ops { IfOk result (λ made.
        made.1 ≡ new_ops (J.joining how.now) numbers.now parents.now ops.now seconds) }
{
    let ops = new_ops(alloc, numbers, ops)?;
    if parents.is_empty() {
        let parents = how.parents(alloc, seconds)?;
        let ops = root_ops(how, parents.as_slice(), ops)?;
        return Ok((parents, ops));
    }
    Ok((new_parents(alloc, numbers, parents)?, ops))
}

// A commit with another id, marks from a first one on, and another branch, other parents and operations.
fn replaced(
    alloc: Global,
    event: &PlainEvent,
    id: CommitId,
    mark: u64,
    branch: Shared<Text>,
    parents: ParentList,
    ops: OpList,
) -> Result<PlainEvent, NoMemory>
    requires low { 1 ≤ mark }
    requires fits { mark + length (event_marks event.now) ≤ MAX_MARK + 1 }
    ensures { IfOk result (λ made. made ≡ replaced id mark branch parents ops event.now) }
{
    match event {
        PlainEvent::Commit {
            author,
            committer,
            encoding,
            comment,
            aliases,
            ..
        } => Ok(PlainEvent::Commit {
            id,
            mark: Mark::new(mark).unwrap(),
            branch,
            author: author.copied(alloc)?,
            committer: committer.copied(alloc)?,
            encoding: encoding.copied(alloc)?,
            comment: comment.copied(alloc)?,
            parents,
            ops: Shared::new(alloc, ops)?,
            aliases: marks_from(alloc, mark + 1, aliases.as_slice())?,
        }),
        other => other.copied(alloc),
    }
}

/// An event of a part, joined, under a new number and with marks from a first one on.
pub fn joined<J: Join>(
    alloc: Global,
    how: &J,
    numbers: &Numbers,
    event: &PlainEvent,
    number: u64,
    mark: u64,
) -> Result<PlainEvent, NoMemory>
    requires there { AreThere numbers.now.part (referents_of event.now) }
    requires low { 1 ≤ mark }
    requires fits { mark + length (event_marks event.now) ≤ MAX_MARK + 1 }
    ensures { IfOk result (λ made. made ≡ marked_from mark (joined_event (J.joining how.now)
        (renamed (new_blob numbers.now) (new_commit numbers.now) number event.now))) }
{
    match event {
        PlainEvent::Blob { bytes, .. } => Ok(PlainEvent::Blob {
            id: BlobId::new(number),
            mark: Mark::new(mark).unwrap(),
            bytes: bytes.share()?,
        }),
        PlainEvent::Commit {
            branch,
            committer,
            parents,
            ops,
            ..
        } => {
            let parents = parents.as_slice();
            let ops = ops.as_ref().as_slice();
            let (parents, ops) = placed(alloc, how, numbers, parents, ops, committer.when.seconds)?;
            let branch = branch_of(alloc, how, branch)?;
            replaced(
                alloc,
                event,
                CommitId::new(number),
                mark,
                branch,
                parents,
                ops,
            )
        }
        PlainEvent::Tag {
            name,
            target,
            tagger,
            comment,
            mark: old,
            ..
        } => Ok(PlainEvent::Tag {
            id: TagId::new(number),
            name: tag_of(alloc, how, name)?,
            target: numbers.commit(*target),
            tagger: tagger.copied(alloc)?,
            comment: comment.copied(alloc)?,
            mark: match old {
                Some(_) => Mark::new(mark),
                None => None,
            },
        }),
        PlainEvent::Reset { branch, target, .. } => Ok(PlainEvent::Reset {
            id: ResetId::new(number),
            branch: branch_of(alloc, how, branch)?,
            target: match target {
                Some(target) => Some(numbers.commit(*target)),
                None => None,
            },
        }),
        PlainEvent::Pass { line, .. } => Ok(PlainEvent::Pass {
            id: PassId::new(number),
            line: line.copied(alloc)?,
        }),
    }
}
