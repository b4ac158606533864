//! Headers at the end of a text. Where memory runs out, here and in the other modules, it is left open how much of them is there.
ghost use Rattle.std.specs.Prelude.{◌≡◌, ◌++◌, codes, decimal, flat_map, OnOk};
ghost use Rattle.event_arena.specs.declared.field.Role.{Role};
ghost use Rattle.mailbox_writer.specs.Headed.{headers_text};
ghost use Rattle.mailbox_laws.specs.Written.{
  check_headers,
  check_text,
  date_name,
  encoding_headers,
  header_text,
  identity_text,
  moment_text,
  parents_headers,
  role_name,
  signed_headers,
  tagger_headers,
};
ghost use Rattle.plain_model.specs.Snapshots.{commit_mark};
ghost use Rattle.plain_model.specs.Text.{line, marked};

use event_arena::{Events, Role};
use listing::{first_line, mark_of, push_mark};
use plain_model::{CommitId, NoMemory, Person, Shared, Signed, Text, When};
use stream_fields::write_when;

// ---- values

fn push_identity(person: &Person, into: &mut Text) -> Result<(), NoMemory>
    ensures { OnOk result (into.new ≡ into.old ++ identity_text person.now) }
{
    let name = person.name.as_slice();
    into.push_all(name)?;
    if !name.is_empty() {
        into.push(b' ')?;
    }
    into.push(b'<')?;
    into.push_all(person.email.as_slice())?;
    into.push(b'>')
}

// The beginning of a comment's first line.
fn check_of(comment: &[u8]) -> &[u8]
    ensures { result.now ≡ check_text comment.now }
{
    let first = first_line(comment);
    if first.len() > 64 {
        &first[..64]
    } else {
        first
    }
}

// ---- headers

/// Puts a header with its value.
pub fn push_header(name: &[u8], value: &[u8], into: &mut Text) -> Result<(), NoMemory>
    ensures { OnOk result (into.new ≡ into.old ++ line (header_text (name.now, value.now))) }
{
    into.push_all(name)?;
    into.push_all(b": ")?;
    into.push_all(value)?;
    into.push(b'\n')
}

/// Puts a header whose value is a mark.
pub fn push_marked(name: &[u8], mark: u64, into: &mut Text) -> Result<(), NoMemory>
    ensures { OnOk result (into.new ≡ into.old ++ line (header_text (name.now, marked mark))) }
{
    into.push_all(name)?;
    into.push_all(b": ")?;
    push_mark(mark, into)?;
    into.push(b'\n')
}

/// Puts a header whose value is a number.
pub fn push_numbered(name: &[u8], number: u64, into: &mut Text) -> Result<(), NoMemory>
    ensures { OnOk result (into.new ≡ into.old ++ line (header_text (name.now, decimal number))) }
{
    into.push_all(name)?;
    into.push_all(b": ")?;
    into.push_number(number)?;
    into.push(b'\n')
}

fn role_name(role: Role) -> &'static [u8]
    ensures { result.now ≡ role_name role }
{
    match role {
        Role::Author => b"Author",
        Role::Committer => b"Committer",
        Role::Tagger => b"Tagger",
    }
}

fn date_name(role: Role) -> &'static [u8]
    ensures { result.now ≡ date_name role }
{
    match role {
        Role::Author => b"Author-Date",
        Role::Committer => b"Committer-Date",
        Role::Tagger => b"Tagger-Date",
    }
}

fn push_who(role: Role, person: &Person, into: &mut Text) -> Result<(), NoMemory>
    ensures { OnOk result
        (into.new ≡ into.old ++ line (header_text (role_name role, identity_text person.now))) }
{
    into.push_all(role_name(role))?;
    into.push_all(b": ")?;
    push_identity(person, into)?;
    into.push(b'\n')
}

fn push_when(role: Role, when: &When, into: &mut Text) -> Result<(), NoMemory>
    ensures { OnOk result
        (into.new ≡ into.old ++ line (header_text (date_name role, moment_text when.now))) }
{
    into.push_all(date_name(role))?;
    into.push_all(b": ")?;
    write_when(when, into)?;
    into.push(b'\n')
}

/// Puts who did something, and when.
pub fn push_signed(role: Role, who: &Signed, into: &mut Text) -> Result<(), NoMemory>
    ensures { OnOk result (into.new ≡ into.old ++ headers_text (signed_headers role who.now)) }
{
    push_who(role, who.person.as_ref(), into)?;
    push_when(role, &who.when, into)
}

/// Puts who made a tag, and when, if that is said.
pub fn push_tagger(tagger: &Option<Signed>, into: &mut Text) -> Result<(), NoMemory>
    ensures { OnOk result (into.new ≡ into.old ++ headers_text (tagger_headers tagger.now)) }
{
    match tagger {
        Some(who) => push_signed(Role::Tagger, who, into),
        None => Ok(()),
    }
}

/// Puts the encoding of a comment, if it is said.
pub fn push_encoding(encoding: &Option<Shared<Text>>, into: &mut Text) -> Result<(), NoMemory>
    ensures { OnOk result (into.new ≡ into.old ++ headers_text (encoding_headers encoding.now)) }
{
    match encoding {
        Some(encoding) => push_header(b"Encoding", encoding.as_slice(), into),
        None => Ok(()),
    }
}

/// Puts what a comment is checked by.
pub fn push_check(comment: &[u8], into: &mut Text) -> Result<(), NoMemory>
    ensures { OnOk result (into.new ≡ into.old ++ headers_text (check_headers comment.now)) }
{
    push_header(b"Check-Text", check_of(comment), into)
}

// Puts the marks of commits, each after a space.
fn push_spaced(events: &Events, commits: &[CommitId], into: &mut Text) -> Result<(), NoMemory>
    ensures { OnOk result
        (into.new ≡ into.old ++ flat_map (λ c. codes " " ++ marked (commit_mark events.now.list c)) commits.now) }
{
    for commit in commits {
        into.push(b' ')?;
        push_mark(mark_of(events, *commit), into)?;
    }
    Ok(())
}

/// Puts the marks of a commit's parents, if it has some.
pub fn push_parents(events: &Events, parents: &[CommitId], into: &mut Text) -> Result<(), NoMemory>
    ensures { OnOk result
        (into.new ≡ into.old ++ headers_text (parents_headers events.now.list parents.now)) }
{
    if parents.is_empty() {
        return Ok(());
    }
    into.push_all(b"Parents:")?;
    push_spaced(events, parents, into)?;
    into.push(b'\n')
}
