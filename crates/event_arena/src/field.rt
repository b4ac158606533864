//! Fields of events that a plan can set.
ghost use Rattle.std.specs.Prelude.{◌≡◌, false, IfOk, OnOk};
ghost use Rattle.event_arena.specs.Changes.{
  with_aliases,
  with_comment,
  with_field,
  with_label,
  with_mark,
  with_ops,
  with_parents,
  with_signed,
  with_target,
};
ghost use Rattle.event_arena.specs.Touched.{indexed_of};
ghost use Rattle.plain_model.specs.declared.event.PlainEvent.{PlainEvent};

use plain_model::{
    CommitId, Copied, Mark, MarkList, NoMemory, OpList, ParentList, PlainEvent, Shared, Signed,
    Text,
};
use std::alloc::Global;

/// As what somebody signs: a commit's author or its committer, or a tag's tagger.
#[derive(Clone, Copy, Debug, PartialEq, Eq)]
pub enum Role {
    Author,
    Committer,
    Tagger,
}

/// A field of an event, with a value for it.
#[derive(Drop)]
pub enum Field {
    Parents(ParentList),
    Ops(OpList),
    Mark(Mark),
    Aliases(MarkList),
    Label(Text),
    Target(CommitId),
    Comment(Text),
    Signed(Role, Signed),
}

impl Field {
    /// Whether an index is made from this field.
    pub fn is_indexed(&self) -> bool
        ensures { result ≡ false → (e : PlainEvent) → indexed_of (with_field self.now e) ≡ indexed_of e }
    {
        match self {
            Field::Parents(_) => true,
            Field::Mark(_) => true,
            Field::Aliases(_) => true,
            _ => false,
        }
    }
}

fn put_parents(event: &mut PlainEvent, new: ParentList)
    ensures { event.new ≡ with_parents new event.old }
{
    if let PlainEvent::Commit { parents, .. } = event {
        *parents = new;
    }
}

fn put_ops(event: &mut PlainEvent, new: Shared<OpList>)
    ensures { event.new ≡ with_ops new event.old }
{
    if let PlainEvent::Commit { ops, .. } = event {
        *ops = new;
    }
}

fn put_mark(event: &mut PlainEvent, new: Mark)
    ensures { event.new ≡ with_mark new event.old }
{
    match event {
        PlainEvent::Blob { mark, .. } => *mark = new,
        PlainEvent::Commit { mark, .. } => *mark = new,
        PlainEvent::Tag {
            mark: Some(mark),
            ..
        } => *mark = new,
        _ => {}
    }
}

fn put_aliases(event: &mut PlainEvent, new: MarkList)
    ensures { event.new ≡ with_aliases new event.old }
{
    if let PlainEvent::Commit { aliases, .. } = event {
        *aliases = new;
    }
}

fn put_label(alloc: Global, event: &mut PlainEvent, new: Text) -> Result<(), NoMemory>
    ensures { OnOk result (event.new ≡ with_label new event.old) }
{
    match event {
        PlainEvent::Commit { branch, .. } => *branch = Shared::new(alloc, new)?,
        PlainEvent::Tag { name, .. } => *name = new,
        PlainEvent::Reset { branch, .. } => *branch = Shared::new(alloc, new)?,
        _ => {}
    }
    Ok(())
}

fn put_target(event: &mut PlainEvent, new: CommitId)
    ensures { event.new ≡ with_target new event.old }
{
    match event {
        PlainEvent::Tag { target, .. } => *target = new,
        PlainEvent::Reset { target, .. } => *target = Some(new),
        _ => {}
    }
}

fn put_comment(event: &mut PlainEvent, new: Text)
    ensures { event.new ≡ with_comment new event.old }
{
    match event {
        PlainEvent::Commit { comment, .. } => *comment = new,
        PlainEvent::Tag { comment, .. } => *comment = new,
        _ => {}
    }
}

fn put_signed(event: &mut PlainEvent, role: Role, new: Signed)
    ensures { event.new ≡ with_signed role new event.old }
{
    match (role, event) {
        (Role::Author, PlainEvent::Commit { author, .. }) => *author = new,
        (Role::Committer, PlainEvent::Commit { committer, .. }) => *committer = new,
        (Role::Tagger, PlainEvent::Tag { tagger, .. }) => *tagger = Some(new),
        _ => {}
    }
}

// Puts a value into its field, where the event has such a field.
fn put_field(alloc: Global, event: &mut PlainEvent, field: Field) -> Result<(), NoMemory>
    ensures { OnOk result (event.new ≡ with_field field event.old) }
{
    match field {
        Field::Parents(new) => put_parents(event, new),
        Field::Ops(new) => put_ops(event, Shared::new(alloc, new)?),
        Field::Mark(new) => put_mark(event, new),
        Field::Aliases(new) => put_aliases(event, new),
        Field::Label(new) => put_label(alloc, event, new)?,
        Field::Target(new) => put_target(event, new),
        Field::Comment(new) => put_comment(event, new),
        Field::Signed(role, new) => put_signed(event, role, new),
    }
    Ok(())
}

/// A copy of an event with another value in a field; it shares what is big in the others. An event without the field is
/// only copied.
pub fn with_field(alloc: Global, event: &PlainEvent, field: Field) -> Result<PlainEvent, NoMemory>
    ensures { IfOk result (λ made. made ≡ with_field field event.now) }
{
    let mut made = event.copied(alloc)?;
    put_field(alloc, &mut made, field)?;
    Ok(made)
}
