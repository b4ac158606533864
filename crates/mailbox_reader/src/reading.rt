//! Header lines and bodies. The lines are cut once, and nothing of the box is copied.
ghost use Rattle.std.specs.Prelude.{◌≡◌, ◌+◌, ◌≤◌, ◌<◌, ℕ, List, [], IfSome, MatchOption, Some, take, length, option_map};
ghost use Rattle.plain_model.specs.Paths.{Bytes};
ghost use Rattle.mailbox_laws.specs.Boxes.{InBody, InHeaders, lines_in, rest_from};
ghost use Rattle.mailbox_laws.specs.Headers.{or_else, value_if};
ghost use Rattle.mailbox_laws.specs.Landing.{line_faults, lowest};
ghost use Rattle.mailbox_reader.specs.Reading.{Say, Noted, rest_after, size_after, value_of};

use crate::faults::lower;
use crate::headers::header_in;
use mailbox_lines::{is_rule, next_line};
use plain_model::Fault;

/// A value that a header line gives, and the number of the line.
#[derive(Clone, Copy)]
pub struct Header<'a> {
    pub line: u64,
    pub value: &'a [u8],
}

/// What header lines say under the names that count, each by the last line of its name.
#[derive(Clone, Copy)]
pub struct Said<'a> {
    pub mark: Option<Header<'a>>,
    pub name: Option<Header<'a>>,
    pub author: Option<Header<'a>>,
    pub author_date: Option<Header<'a>>,
    pub committer: Option<Header<'a>>,
    pub committer_date: Option<Header<'a>>,
    pub tagger: Option<Header<'a>>,
    pub tagger_date: Option<Header<'a>>,
    pub check: Option<Header<'a>>,
}

/// Before any header line.
pub fn nothing<'a>() -> Said<'a>
    ensures { (hs : List (ℕ × Bytes)) → Say hs hs result }
{
    Said {
        mark: None,
        name: None,
        author: None,
        author_date: None,
        committer: None,
        committer_date: None,
        tagger: None,
        tagger_date: None,
        check: None,
    }
}

// A header's value, where a line gives another or not.
fn later<'a>(
    name: &[u8],
    line: u64,
    found: &[u8],
    value: &'a [u8],
    old: Option<Header<'a>>,
) -> Option<Header<'a>>
    ensures { value_of result ≡ or_else (option_map (λ v. (line, v))
        (value_if name.now (found.now, value.now))) (value_of old.entry) }
{
    if found == name {
        Some(Header { line, value })
    } else {
        old
    }
}

// What header lines say with one more.
fn noted<'a>(said: Said<'a>, line: u64, found: &[u8], value: &'a [u8]) -> Said<'a>
    ensures { Noted line (found.now, value.now) said.entry result }
{
    Said {
        mark: later(b"Event-Mark", line, found, value, said.mark),
        name: later(b"Tag-Name", line, found, value, said.name),
        author: later(b"Author", line, found, value, said.author),
        author_date: later(b"Author-Date", line, found, value, said.author_date),
        committer: later(b"Committer", line, found, value, said.committer),
        committer_date: later(b"Committer-Date", line, found, value, said.committer_date),
        tagger: later(b"Tagger", line, found, value, said.tagger),
        tagger_date: later(b"Tagger-Date", line, found, value, said.tagger_date),
        check: later(b"Check-Text", line, found, value, said.check),
    }
}

/// The header lines from here on, of which the first has the number: what they say, the first of them that is none, the number of the
/// line after them, and what follows the empty line, if there is one.
pub fn head_of<'a>(
    bytes: &'a [u8],
    first: u64,
    said: &mut Said<'a>,
) -> (Option<Fault>, u64, Option<&'a [u8]>)
    requires { first + length bytes.now < 18446744073709551615 }
    ensures says { Say [] (rest_from InHeaders first (lines_in bytes.now)).headers said.new }
    ensures bad { result.0 ≡ lowest (line_faults (rest_from InHeaders first (lines_in bytes.now)).headers) }
    ensures end { result.1 ≡ first + length (rest_from InHeaders first (lines_in bytes.now)).headers }
    ensures body { (rest_from InHeaders first (lines_in bytes.now)).body ≡ (rest_after result.1 result.2).body }
    ensures later { (rest_from InHeaders first (lines_in bytes.now)).later ≡ (rest_after result.1 result.2).later }
    ensures fits { result.1 + size_after result.2 ≤ first + length bytes.now }
    ensures shorter { size_after result.2 ≤ length bytes.now }
{
    let mut rest = bytes;
    let mut next = first;
    let mut bad = None;
    *said = nothing();
    while let Some((line, after)) = next_line(rest) {
        if line.is_empty() {
            return (bad, next, Some(after));
        }
        match header_in(line) {
            Some((name, value)) => *said = noted(*said, next, name, value),
            None => bad = lower(bad, Some(Fault::BadMessage { line: next })),
        }
        rest = after;
        next += 1;
    }
    (bad, next, None)
}

/// How many lines a body has, and what follows them, with the number of its first line.
#[derive(Clone, Copy)]
pub struct Extent<'a> {
    pub count: u64,
    pub rest: &'a [u8],
    pub next: u64,
}

/// The lines up to the next line of hyphens, or to the end.
pub fn body_of(bytes: &[u8], first: u64) -> Extent<'_>
    requires { first + length bytes.now < 18446744073709551615 }
    ensures body { (rest_from InBody first (lines_in bytes.now)).body ≡ Some (take result.count (lines_in bytes.now)) }
    ensures later { (rest_from InBody first (lines_in bytes.now)).later
        ≡ (rest_from InBody result.next (lines_in result.rest.now)).later }
    ensures begun { (rest_from InBody result.next (lines_in result.rest.now)).body ≡ Some [] }
    ensures count { result.count ≤ length (lines_in bytes.now) }
    ensures fits { result.next + length result.rest.now ≤ first + length bytes.now }
    ensures shorter { length result.rest.now ≤ length bytes.now }
{
    let mut rest = bytes;
    let mut next = first;
    let mut count = 0;
    while let Some((line, after)) = next_line(rest) {
        if is_rule(line) {
            return Extent { count, rest, next };
        }
        rest = after;
        next += 1;
        count += 1;
    }
    Extent { count, rest, next }
}
