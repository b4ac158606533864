//! The plan in which a commit has one operation more.
ghost use Rattle.std.specs.Prelude.{◌≡◌, IfOk, IsOk};
ghost use Rattle.commit_laws.specs.Rewriting.{rewritten_all};
ghost use Rattle.edit_laws.specs.Settling.{settle};
ghost use Rattle.event_arena.specs.Plans.{Plans, leaving};
ghost use Rattle.manifest_cache.specs.Kept.{AgreesWith};
ghost use Rattle.plain_model.specs.Faults.{Returns};
ghost use Rattle.plain_model.specs.Fields.{HasItsContent, OpFits};
ghost use Rattle.reparent_laws.specs.Operations.{add_of, add_to, adds, as_blob, content_of, op_of};

use crate::judging::judge;
use event_arena::{Events, Plan};
use manifest_cache::Manifests;
use plain_model::{
    AnyId, CommitId, Content, Copied, Fault, FileOp, Halt, NoMemory, OpList, RawContent, RawOp,
};
use plan_steps::{give_ops, ops_of, put_in_order, the_commit};
use reparent_laws::{a_change_keeps_soundness, settling_comes_to_its_end};
use std::alloc::Global;

// What an operation puts that names an event: a blob.
fn as_blob(mark: u64, found: &Option<AnyId>) -> Result<Content, Fault>
    ensures { result ≡ as_blob mark found.now }
{
    match found {
        Some(AnyId::Blob(blob)) => Ok(Content::Blob(*blob)),
        _ => Err(Fault::NoSuchMark { mark }),
    }
}

// What an operation puts: the blob of a mark, or an object.
fn content_of(events: &Events, its: &RawContent) -> Result<Content, Fault>
    ensures { result ≡ content_of events.now.list its.now }
{
    match its {
        RawContent::Marked(mark) => as_blob(mark.number(), &events.by_mark(*mark)),
        RawContent::Object(id) => Ok(Content::Object(*id)),
        RawContent::Inline => Err(Fault::NoSuchMark { mark: 0 }),
    }
}

// The operation in this history.
fn op_of(alloc: Global, events: &Events, spelled: &RawOp) -> Result<FileOp, Halt>
    ensures { Returns (λ op. op) result (op_of events.now.list spelled.now) }
{
    match spelled {
        RawOp::Modify {
            mode,
            content,
            path,
        } => match content_of(events, content) {
            Ok(content) => Ok(FileOp::Modify {
                mode: *mode,
                content,
                path: path.copied(alloc)?,
            }),
            Err(fault) => Err(Halt::Refused(fault)),
        },
        RawOp::Delete { path } => Ok(FileOp::Delete {
            path: path.copied(alloc)?,
        }),
        RawOp::Copy { source, target } => Ok(FileOp::Copy {
            source: source.copied(alloc)?,
            target: target.copied(alloc)?,
        }),
        RawOp::Rename { source, target } => Ok(FileOp::Rename {
            source: source.copied(alloc)?,
            target: target.copied(alloc)?,
        }),
        RawOp::DeleteAll => Ok(FileOp::DeleteAll),
    }
}

// The fields of a spelled operation are what they can be. It does nothing.
fn known(spelled: &RawOp)
    ensures { OpFits spelled.now }
{
    match spelled {
        RawOp::Modify { content, path, .. } => {
            match content {
                RawContent::Marked(mark) => {
                    let _number = mark.number();
                }
                RawContent::Object(id) => {
                    let _digits = id.digits();
                }
                RawContent::Inline => {}
            }
            let _bytes = path.as_bytes();
        }
        RawOp::Delete { path } => {
            let _bytes = path.as_bytes();
        }
        RawOp::Copy { source, target } => {
            let _source = source.as_bytes();
            let _target = target.as_bytes();
        }
        RawOp::Rename { source, target } => {
            let _source = source.as_bytes();
            let _target = target.as_bytes();
        }
        RawOp::DeleteAll => {}
    }
}

// The plan in which a commit has an operation more, the last, which is not settled yet.
fn added(alloc: Global, events: &Events, commit: CommitId, op: FileOp) -> Result<Plan, NoMemory>
    ensures { IfOk result (λ plan. plan
        ≡ leaving events.now (rewritten_all commit (adds op) events.now.list)) }
{
    let _count = events.count();
    let mut plan = Plan::new(alloc, events)?;
    let mut ops = OpList::of(alloc, ops_of(events, commit))?;
    ops.push(op)?;
    give_ops(&mut plan, commit, ops)?;
    Ok(plan)
}

// The plan in which a commit has an operation more, each event after all that it refers to.
fn add_to(
    alloc: Global,
    events: &Events,
    manifests: &mut Manifests,
    commit: CommitId,
    op: FileOp,
) -> Result<Plan, Halt>
    requires agrees { AgreesWith events.now.list manifests.old }
    requires ends { IsOk (settle (rewritten_all commit (adds op) events.now.list)) }
    ensures answer { Returns (λ plan. plan.after) result (add_to events.now.list commit op) }
    ensures made { IfOk result (λ plan. plan ≡ leaving events.now plan.after) }
    ensures kept { manifests.new ≡ manifests.old }
{
    let _count = events.count();
    let mut plan = added(alloc, events, commit, op)?;
    put_in_order(alloc, &mut plan)?;
    match judge(manifests, &plan) {
        Ok(()) => Ok(plan),
        Err(halt) => Err(halt),
    }
}

/// The plan that puts an operation at the end of a commit's. A blob that it names comes before the commit. Refused
/// where it isn't one commit, where no blob has the mark, by the first limit that is passed, and by the first operation
/// that a tree refuses then; an operation whose data is inline counts as one of the mark 0. (reposurgeon manual,
/// `add`.)
pub fn add_op(
    alloc: Global,
    events: &Events,
    manifests: &mut Manifests,
    set: &[AnyId],
    spelled: &RawOp,
) -> Result<Plan, Halt>
    requires agrees { AgreesWith events.now.list manifests.old }
    // A link to another repository has an object's id.
    requires content { HasItsContent spelled.now }
    ensures plans { Plans events.now events.now.next_id result
        (add_of spelled.now set.now events.now.list) }
    ensures kept { manifests.new ≡ manifests.old }
{
    let _count = events.count();
    known(spelled);
    let commit = match the_commit(events, set) {
        Ok(commit) => commit,
        Err(fault) => return Err(Halt::Refused(fault)),
    };
    let op = match op_of(alloc, events, spelled) {
        Ok(op) => op,
        Err(halt) => return Err(halt),
    };
    settling_comes_to_its_end();
    match add_to(alloc, events, manifests, commit, op) {
        Ok(plan) => {
            a_change_keeps_soundness();
            Ok(plan)
        }
        Err(halt) => Err(halt),
    }
}
