//! The plan by which the people of a history have the names and emails of an authors file.
ghost use Rattle.std.specs.Prelude.{◌≡◌, Some, option_map, unwrap_or, IfOk, OnOk};
ghost use Rattle.event_arena.specs.Changes.{changed};
ghost use Rattle.event_arena.specs.Plans.{Plans};
ghost use Rattle.people_edit.specs.Tables.{said_for, table_of};
ghost use Rattle.people_laws.specs.Authors.{all_authored, authored, authors_of};
ghost use Rattle.plain_model.specs.Faults.{Returns};
ghost use Rattle.plain_model.specs.Lookups.{find_event, id_of};

use crate::lines::{author_in, is_passed_over};
use crate::signing::set_both;
use crate::table::AuthorTable;
use event_arena::{Events, Plan, Role};
use mailbox_lines::next_line;
use people_laws::authors_keep_soundness;
use plain_model::{AnyId, Fault, Halt, Items, NoMemory, Person, PlainEvent, Shared, Signed};
use std::alloc::Global;

// ---- the file

// A person with this name and this email.
fn person(alloc: Global, name: &[u8], email: &[u8]) -> Result<Shared<Person>, NoMemory>
    ensures { IfOk result (λ person. person ≡ record { name = name.now; email = email.now }) }
{
    let name = Items::of(alloc, name)?;
    let email = Items::of(alloc, email)?;
    Shared::new(alloc, Person { name, email })
}

// The table of an authors file.
fn table_of(alloc: Global, bytes: &[u8]) -> Result<AuthorTable<'_>, Halt>
    ensures { Returns (λ table. table) result (table_of bytes.now) }
{
    let mut table = AuthorTable::new(alloc);
    let mut line: u64 = 1;
    let mut rest = bytes;
    while let Some((text, after)) = next_line(rest) {
        if !is_passed_over(text) {
            match author_in(text) {
                Some((key, name, email)) => table.put(key, person(alloc, name, email)?)?,
                None => return Err(Halt::Refused(Fault::BadAuthors { line })),
            }
        }
        rest = after;
        line += 1;
    }
    Ok(table)
}

// ---- the history

// Who is put in the place of who signs, by the email.
fn found<'t>(table: &'t AuthorTable<'_>, who: &Signed) -> Option<&'t Shared<Person>>
    ensures { option_map (λ person. person.now) result ≡ said_for table.now who.now.person.email }
{
    table.person_for(who.person.as_ref().email.as_slice())
}

// The same date, with the person that is found, or else the same person.
fn signed_by(who: &Signed, found: Option<&Shared<Person>>) -> Result<Signed, NoMemory>
    ensures { IfOk result (λ signed. signed ≡ record who.now {
      person = unwrap_or (option_map (λ person. person.now) found.entry) who.now.person;
    }) }
{
    let person = match found {
        Some(person) => person.share()?,
        None => who.person.share()?,
    };
    Ok(Signed {
        person,
        when: who.when,
    })
}

// Puts other people in an event. One in which no one is found isn't copied.
fn name(plan: &mut Plan, event: &PlainEvent, table: &AuthorTable<'_>) -> Result<(), NoMemory>
    requires { find_event (id_of event.now) plan.old.after ≡ Some event.now }
    ensures { OnOk result (plan.new ≡ record plan.old {
      after = changed (id_of event.now) (authored (said_for table.now)) plan.old.after;
    }) }
{
    match event {
        PlainEvent::Commit {
            id,
            author,
            committer,
            ..
        } => {
            let wrote = found(table, author);
            let made = found(table, committer);
            if wrote.is_none() && made.is_none() {
                return Ok(());
            }
            let wrote = signed_by(author, wrote)?;
            let made = signed_by(committer, made)?;
            set_both(plan, *id, wrote, made)
        }
        PlainEvent::Tag { id, tagger, .. } => match tagger {
            Some(tagger) => {
                let made = found(table, tagger);
                if made.is_none() {
                    return Ok(());
                }
                let made = signed_by(tagger, made)?;
                plan.set_signed(AnyId::Tag(*id), Role::Tagger, made)
            }
            None => Ok(()),
        },
        _ => Ok(()),
    }
}

// Puts other people in all events, in one pass.
fn name_all(plan: &mut Plan, events: &Events, table: &AuthorTable<'_>) -> Result<(), NoMemory>
    requires { plan.old.after ≡ events.now.list }
    ensures { OnOk result (plan.new ≡ record plan.old {
      after = all_authored (said_for table.now) events.now.list;
    }) }
{
    for place in 0..events.count() {
        name(plan, events.nth(place), table)?;
    }
    Ok(())
}

/// The plan by which the people of a history have the names and emails of an authors file, all looked up by the emails that
/// they have. Refused is its lowest line that isn't right. It takes time for the file and for the history once, with a look-up for
/// each person. (reposurgeon manual, `authors`; which lines are right: own.)
pub fn authors(alloc: Global, events: &Events, bytes: &[u8]) -> Result<Plan, Halt>
    ensures { Plans events.now events.now.next_id result (authors_of bytes.now events.now.list) }
{
    let _count = events.count();
    authors_keep_soundness();
    let table = table_of(alloc, bytes)?;
    let mut plan = Plan::new(alloc, events)?;
    name_all(&mut plan, events, &table)?;
    Ok(plan)
}
