//! `/p/`: the events that a pattern is found in.
ghost use Rattle.std.specs.Prelude.{◌≡◌, ◌≤◌, ◌||◌, ◌++◌, IfOk, OnOk};
ghost use Rattle.std.specs.List.{list_any};
ghost use Rattle.byte_patterns.specs.Judging.{Judges};
ghost use Rattle.byte_patterns.specs.Searching.{found_in};
ghost use Rattle.event_sets.specs.Sets.{passing};
ghost use Rattle.selection_eval.specs.Denoted.{searched};
ghost use Rattle.selection_eval.specs.Fields.{
  asked,
  asked_person,
  has_found,
  is_open,
  person_text,
};

use crate::testing::{EventTest, passing};
use byte_patterns::{Pattern, Patterns, Searcher};
use event_arena::Events;
use event_sets::EventSet;
use plain_model::{Halt, Items, NoMemory, Person, PlainEvent, Signed, Text};
use selection_parser::FieldSet;
use std::alloc::Global;

fn is_open(fields: FieldSet) -> bool
    ensures { result ≡ is_open fields }
{
    !(fields.authors || fields.comments || fields.names || fields.taggers || fields.branches)
}

// Puts a person as it is searched in the place of another text.
fn set_person(person: &Person, text: &mut Text) -> Result<(), NoMemory>
    ensures { OnOk result (text.new ≡ person_text person.now) }
{
    text.truncate(0);
    text.push_all(person.name.as_slice())?;
    text.push_all(b" <")?;
    text.push_all(person.email.as_slice())?;
    text.push_all(b">")
}

// Whether the pattern is found in a text that is asked for.
fn is_in(searcher: &mut Searcher<'_>, wanted: bool, text: &[u8]) -> bool
    ensures found { result ≡ list_any (found_in searcher.old) (asked wanted text.now) }
    ensures same { searcher.new ≡ searcher.old }
{
    wanted && searcher.finds(text)
}

// The same of a person.
fn is_in_person(
    searcher: &mut Searcher<'_>,
    wanted: bool,
    person: &Person,
    text: &mut Text,
) -> Result<bool, NoMemory>
    ensures found { IfOk result (λ found. found
        ≡ list_any (found_in searcher.old) (asked wanted (person_text person.now))) }
    ensures same { searcher.new ≡ searcher.old }
{
    if !wanted {
        return Ok(false);
    }
    set_person(person, text)?;
    Ok(searcher.finds(text.as_slice()))
}

// The same of a tagger, if there is one.
fn is_in_tagger(
    searcher: &mut Searcher<'_>,
    wanted: bool,
    tagger: &Option<Signed>,
    text: &mut Text,
) -> Result<bool, NoMemory>
    ensures found { IfOk result (λ found. found
        ≡ list_any (found_in searcher.old) (asked_person wanted tagger.now)) }
    ensures same { searcher.new ≡ searcher.old }
{
    match tagger {
        Some(signed) => is_in_person(searcher, wanted, signed.person.as_ref(), text),
        None => Ok(false),
    }
}

// Whether the pattern is found in the fields of a commit that are asked for.
fn is_in_commit(
    searcher: &mut Searcher<'_>,
    fields: FieldSet,
    branch: &[u8],
    author: &Signed,
    committer: &Signed,
    comment: &[u8],
    text: &mut Text,
) -> Result<bool, NoMemory>
    ensures found { IfOk result (λ found. found ≡ list_any (found_in searcher.old)
        (asked (is_open fields || fields.comments) comment.now
        ++ asked (is_open fields || fields.authors) (person_text author.now.person)
        ++ asked (is_open fields) (person_text committer.now.person)
        ++ asked fields.branches branch.now)) }
    ensures same { searcher.new ≡ searcher.old }
{
    let open = is_open(fields);
    let in_comment = is_in(searcher, open || fields.comments, comment);
    let in_author = is_in_person(
        searcher,
        open || fields.authors,
        author.person.as_ref(),
        text,
    )?;
    let in_committer = is_in_person(searcher, open, committer.person.as_ref(), text)?;
    let in_branch = is_in(searcher, fields.branches, branch);
    Ok(in_comment || in_author || in_committer || in_branch)
}

// Whether it is found in those of a tag.
fn is_in_tag(
    searcher: &mut Searcher<'_>,
    fields: FieldSet,
    name: &[u8],
    tagger: &Option<Signed>,
    comment: &[u8],
    text: &mut Text,
) -> Result<bool, NoMemory>
    ensures found { IfOk result (λ found. found ≡ list_any (found_in searcher.old)
        (asked (is_open fields || fields.comments) comment.now
        ++ asked (is_open fields || fields.names) name.now
        ++ asked_person (is_open fields || fields.taggers) tagger.now)) }
    ensures same { searcher.new ≡ searcher.old }
{
    let open = is_open(fields);
    let in_comment = is_in(searcher, open || fields.comments, comment);
    let in_name = is_in(searcher, open || fields.names, name);
    let in_tagger = is_in_tagger(searcher, open || fields.taggers, tagger, text)?;
    Ok(in_comment || in_name || in_tagger)
}

// A search in fields of events.
#[derive(Drop)]
struct FieldSearch<'r> {
    searcher: Searcher<'r>,
    fields: FieldSet,
    text: Text,
}

impl<'r> EventTest for FieldSearch<'r> {
    ghost use Rattle.selection_eval.specs.Fields.{has_found};

    ghost test = { λ t. has_found t.searcher t.fields };

    #[tactic(auto, unfolding(crate::specs::Fields::has_found))]
    fn passes(&mut self, event: &PlainEvent) -> Result<bool, NoMemory> {
        match event {
            PlainEvent::Blob { .. } => Ok(false),
            PlainEvent::Commit {
                branch,
                author,
                committer,
                comment,
                ..
            } => is_in_commit(
                &mut self.searcher,
                self.fields,
                branch.as_slice(),
                author,
                committer,
                comment.as_slice(),
                &mut self.text,
            ),
            PlainEvent::Tag {
                name,
                tagger,
                comment,
                ..
            } => is_in_tag(
                &mut self.searcher,
                self.fields,
                name.as_slice(),
                tagger,
                comment.as_slice(),
                &mut self.text,
            ),
            PlainEvent::Reset { branch, .. } => Ok(is_in(
                &mut self.searcher,
                self.fields.branches,
                branch.as_slice(),
            )),
            PlainEvent::Pass { line, .. } => Ok(is_in(
                &mut self.searcher,
                is_open(self.fields),
                line.as_slice(),
            )),
        }
    }
}

// The events that a pattern is found in.
fn found<'e>(
    alloc: Global,
    pattern: &Pattern,
    fields: FieldSet,
    events: &'e Events,
) -> Result<EventSet<'e>, NoMemory>
    ensures events { IfOk result (λ set. set.events ≡ events.now.list) }
    ensures ids { IfOk result (λ set. set.ids
        ≡ passing (has_found pattern.now fields) events.now.list) }
{
    let mut search = FieldSearch {
        searcher: pattern.searcher(alloc)?,
        fields,
        text: Items::empty(alloc),
    };
    passing(alloc, events, &mut search)
}

/// `/p/`: the events one of whose fields the pattern is found in, ascending.
pub fn search<'e, P: Patterns>(
    alloc: Global,
    pattern: &str,
    fields: FieldSet,
    events: &'e Events,
    patterns: &mut P,
) -> Result<EventSet<'e>, Halt>
    ensures events { IfOk result (λ set. set.events ≡ events.now.list) }
    ensures judged { Judges (λ set. set.ids) (P.sizes patterns.old) (P.sizes patterns.new) result
        (searched pattern.now fields events.now.list) }
    ensures grows { P.sizes patterns.old ≤ P.sizes patterns.new }
{
    match Pattern::of(alloc, pattern, patterns) {
        Ok(pattern) => Ok(found(alloc, &pattern, fields, events)?),
        Err(halt) => Err(halt),
    }
}
