//! What one message changes of its event, in a plan. What it leaves as it was isn't copied.
ghost use Rattle.std.specs.Prelude.{◌≡◌, ◌≤◌, length, take, IfOk, IfSome, IsSome, IsTrue, OnOk, option_map};
ghost use Rattle.std.specs.Bool.{OnTrue};
ghost use Rattle.event_arena.specs.Changes.{changed, has_comment, with_comment};
ghost use Rattle.mailbox_edit.specs.Landings.{IsGiven, IsLandable, given_moment, given_person, landed_as, signed_in, with_given};
ghost use Rattle.mailbox_laws.specs.Boxes.{comment_in, lines_in};
ghost use Rattle.plain_model.specs.Lookups.{find_event};

use crate::landing::Landing;
use event_arena::{Plan, Role};
use mailbox_lines::push_comment;
use mailbox_reader::{Header, identity_in};
use plain_model::{AnyId, Items, NoMemory, Person, PlainEvent, Shared, Signed, Text, When};
use std::alloc::Global;
use stream_fields::{People, moment};

// ---- who and when

// Who has a role of an event, and when.
fn signed_in(event: &PlainEvent, role: Role) -> Option<&Signed>
    ensures { option_map (λ signed. signed.now) result ≡ signed_in role event.now }
{
    match (role, event) {
        (Role::Author, PlainEvent::Commit { author, .. }) => Some(author),
        (Role::Committer, PlainEvent::Commit { committer, .. }) => Some(committer),
        (Role::Tagger, PlainEvent::Tag { tagger, .. }) => tagger.as_ref(),
        _ => None,
    }
}

// The person whom a header gives, or the old one.
fn given_person(
    alloc: Global,
    people: &mut People,
    old: &Shared<Person>,
    who: Option<Header<'_>>,
) -> Result<Shared<Person>, NoMemory>
    ensures { IfOk result (λ person. person ≡ given_person who.entry old.now) }
{
    let Some(header) = who else {
        return old.share();
    };
    match identity_in(header.value) {
        Some((name, email)) => people.shared(alloc, header.value, name, email),
        None => old.share(),
    }
}

// The moment that a header gives, or the old one.
fn given_moment(old: When, when: Option<Header<'_>>) -> When
    ensures { result ≡ given_moment when.entry old }
{
    match when {
        Some(header) => moment(header.value).unwrap_or(old),
        None => old,
    }
}

fn is_same(old: &Signed, new: &Signed) -> bool
    ensures { OnTrue result (old.now ≡ new.now) }
{
    let one = old.person.as_ref();
    let other = new.person.as_ref();
    old.when == new.when
        && one.name.as_slice() == other.name.as_slice()
        && one.email.as_slice() == other.email.as_slice()
}

// What headers give in a role of an event, unless it is so already.
fn given(
    alloc: Global,
    people: &mut People,
    event: &PlainEvent,
    role: Role,
    who: Option<Header<'_>>,
    when: Option<Header<'_>>,
) -> Result<Option<Signed>, NoMemory>
    ensures { IfOk result (λ made. IsGiven role who.entry when.entry made event.now) }
{
    let Some(old) = signed_in(event, role) else {
        return Ok(None);
    };
    let new = Signed {
        person: given_person(alloc, people, &old.person, who)?,
        when: given_moment(old.when, when),
    };
    if is_same(old, &new) {
        return Ok(None);
    }
    Ok(Some(new))
}

// The same of the event in a plan.
fn given_in(
    alloc: Global,
    people: &mut People,
    plan: &Plan,
    id: &AnyId,
    role: Role,
    who: Option<Header<'_>>,
    when: Option<Header<'_>>,
) -> Result<Option<Signed>, NoMemory>
    ensures { IfOk result (λ made. IfSome (find_event id.now plan.now.after) (IsGiven role who.entry when.entry made)) }
{
    match plan.event(*id) {
        Some(event) => given(alloc, people, event, role, who, when),
        None => Ok(None),
    }
}

// Gives an event what headers say of a role.
fn give(
    alloc: Global,
    people: &mut People,
    plan: &mut Plan,
    id: &AnyId,
    role: Role,
    who: Option<Header<'_>>,
    when: Option<Header<'_>>,
) -> Result<(), NoMemory>
    requires { IsSome (find_event id.now plan.old.after) }
    ensures { OnOk result (plan.new ≡ record plan.old {
      after = changed id.now (with_given role who.entry when.entry) plan.old.after;
    }) }
{
    match given_in(alloc, people, plan, id, role, who, when)? {
        Some(signed) => plan.set_signed(*id, role, signed),
        None => Ok(()),
    }
}

// ---- comments

// Whether an event of a plan has the comment.
fn has_comment(plan: &Plan, id: &AnyId, comment: &[u8]) -> bool
    ensures { OnTrue result (IfSome (find_event id.now plan.now.after)
        (λ event. with_comment comment.now event ≡ event)) }
{
    match plan.event(*id) {
        Some(PlainEvent::Commit { comment: old, .. }) => old.as_slice() == comment,
        Some(PlainEvent::Tag { comment: old, .. }) => old.as_slice() == comment,
        _ => false,
    }
}

// The comment for which so many lines of a body stand.
fn comment_of(alloc: Global, body: &[u8], count: u64) -> Result<Text, NoMemory>
    requires { count ≤ length (lines_in body.now) }
    ensures { IfOk result (λ text. text ≡ comment_in (take count (lines_in body.now))) }
{
    let mut text = Items::empty(alloc);
    push_comment(body, count, &mut text)?;
    Ok(text)
}

// Gives an event the comment for which so many lines of a body stand.
fn give_comment(
    alloc: Global,
    plan: &mut Plan,
    id: &AnyId,
    body: &[u8],
    count: u64,
) -> Result<(), NoMemory>
    requires there { IsSome (find_event id.now plan.old.after) }
    requires field { IsTrue (has_comment id.now) }
    requires fits { count ≤ length (lines_in body.now) }
    ensures { OnOk result (plan.new ≡ record plan.old {
      after = changed id.now (with_comment (comment_in (take count (lines_in body.now)))) plan.old.after;
    }) }
{
    let comment = comment_of(alloc, body, count)?;
    if has_comment(plan, id, comment.as_slice()) {
        return Ok(());
    }
    plan.set_comment(*id, comment)
}

/// Lands one message.
pub fn land(
    alloc: Global,
    people: &mut People,
    plan: &mut Plan,
    landing: &Landing<'_>,
) -> Result<(), NoMemory>
    requires { IsLandable plan.old.after landing.now }
    ensures { OnOk result (plan.new ≡ record plan.old {
      after = changed landing.now.id (landed_as landing.now) plan.old.after;
    }) }
{
    let said = landing.said;
    let id = &landing.id;
    give(
        alloc,
        people,
        plan,
        id,
        Role::Author,
        said.author,
        said.author_date,
    )?;
    give(
        alloc,
        people,
        plan,
        id,
        Role::Committer,
        said.committer,
        said.committer_date,
    )?;
    give(
        alloc,
        people,
        plan,
        id,
        Role::Tagger,
        said.tagger,
        said.tagger_date,
    )?;
    give_comment(alloc, plan, id, landing.body, landing.count)
}
