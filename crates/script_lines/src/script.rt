//! The lines of a script that are run, and the macros that it defines.
ghost use Rattle.std.specs.Prelude.{◌≡◌, ◌++◌, ◌∷◌, [], IfOk, OnOk};
ghost use Rattle.std.specs.List.{list_any};
ghost use Rattle.plain_model.specs.Faults.{Returns};
ghost use Rattle.script_lines.specs.Scripts.{
  bad_at,
  closes,
  definition_in,
  item_at,
  item_of,
  lines_of,
  opened,
  place_after,
  script_of,
  trimmed,
};

use crate::definition::{definition_in, opens};
use crate::lines::{first_line, is_nothing};
use crate::script_text::ScriptText;
use crate::trimming::{trim, trim_bytes};
use plain_model::{Copied, Fault, Halt, Items, NoMemory, Text};
use std::alloc::Global;
use std::marker::Model;
use std::str;

/// Lines, each without the blanks and CR at its ends.
pub type LineList = Items<ScriptText>;

/// What is run at a place of a script. (own)
#[derive(Drop)]
pub enum ScriptLine {
    /// A line: not empty and no comment, without the blanks and CR at its ends.
    Plain(ScriptText),
    /// The definition of a macro. The lines of its body may be empty or comments.
    Define { name: Text, body: LineList },
}

impl Copied for ScriptLine {
    fn copied(&self, alloc: Global) -> Result<ScriptLine, NoMemory> {
        match self {
            ScriptLine::Plain(text) => Ok(ScriptLine::Plain(text.copied(alloc)?)),
            ScriptLine::Define { name, body } => Ok(ScriptLine::Define {
                name: name.copied(alloc)?,
                body: body.copied(alloc)?,
            }),
        }
    }
}

/// What is run, with the number of its line, from 1; of a definition that of its `define`.
#[derive(Drop)]
pub struct ScriptItem {
    pub line: u64,
    pub what: ScriptLine,
}

/// Items of a script, in their order.
pub type ItemList = Items<ScriptItem>;

/// A script: what is run of it, in its order.
#[derive(Drop)]
pub struct Script {
    items: ItemList,
}

impl Model for Script {
    ghost use Rattle.std.specs.Prelude.{List};
    ghost use Rattle.script_lines.specs.declared.script.ScriptItem.{ScriptItem};

    ghost Value = { List ScriptItem };

    ghost view = { λ s. s.items };
}

// Where in a script the reader is: between its items, or in the body of a macro that is defined from a line on.
#[derive(Drop)]
enum Place {
    Outside,
    Within {
        begun: u64,
        name: Text,
        body: LineList,
    },
}

// Whether a line ends a body.
fn closes(text: &[u8]) -> bool
    ensures { result ≡ closes text.now }
{
    text == b"}".as_slice()
}

// The body that is this one text.
fn one_line(alloc: Global, text: &str) -> Result<LineList, NoMemory>
    ensures { IfOk result (λ body. body ≡ text.now ∷ []) }
{
    let mut body = Items::new(alloc)?;
    body.push(ScriptText::of(alloc, text)?)?;
    Ok(body)
}

// Takes a line that is outside of bodies.
fn take_outside(
    alloc: Global,
    items: &mut ItemList,
    line: u64,
    text: &str,
) -> Result<Place, NoMemory>
    ensures items { OnOk result
        (items.new ≡ items.old ++ item_of line text.now (definition_in text.now)) }
    ensures place { IfOk result (λ place. place ≡ opened line (definition_in text.now)) }
{
    match definition_in(text) {
        Some((name, body)) => {
            let name = Items::of(alloc, name.as_bytes())?;
            if opens(body) {
                return Ok(Place::Within {
                    begun: line,
                    name,
                    body: Items::new(alloc)?,
                });
            }
            let body = one_line(alloc, body)?;
            items.push(ScriptItem {
                line,
                what: ScriptLine::Define { name, body },
            })?;
        }
        None => {
            if !is_nothing(text) {
                items.push(ScriptItem {
                    line,
                    what: ScriptLine::Plain(ScriptText::of(alloc, text)?),
                })?;
            }
        }
    }
    Ok(Place::Outside)
}

// Takes a line of which the ends don't count any more, and gives where the reader is after it.
fn take_line(
    alloc: Global,
    items: &mut ItemList,
    place: Place,
    line: u64,
    text: &str,
) -> Result<Place, NoMemory>
    ensures items { OnOk result (items.new ≡ items.old ++ item_at line place text.now) }
    ensures place { IfOk result (λ after. after ≡ place_after line place text.now) }
{
    match place {
        Place::Outside => take_outside(alloc, items, line, text),
        Place::Within { begun, name, body } if closes(text.as_bytes()) => {
            items.push(ScriptItem {
                line: begun,
                what: ScriptLine::Define { name, body },
            })?;
            Ok(Place::Outside)
        }
        Place::Within {
            begun,
            name,
            mut body,
        } => {
            body.push(ScriptText::of(alloc, text)?)?;
            Ok(Place::Within { begun, name, body })
        }
    }
}

// Whether a line of these ends a body.
fn is_closed(bytes: &[u8]) -> bool
    ensures { result ≡ list_any (λ line. closes (trimmed line)) (lines_of bytes.now) }
{
    let mut rest = bytes;
    while let Some((line, after)) = first_line(rest) {
        if closes(trim_bytes(line)) {
            return true;
        }
        rest = after;
    }
    false
}

// What is reported of a line that isn't UTF-8, before this rest of the script.
fn bad_at(place: &Place, line: u64, rest: &[u8]) -> Fault
    ensures { result ≡ bad_at line place.now (lines_of rest.now) }
{
    match place {
        Place::Within { begun, .. } if !is_closed(rest) => Fault::UnclosedDefine { line: *begun },
        _ => Fault::BadText { line },
    }
}

impl Script {
    /// Reads the bytes of a script. Refused where a line isn't UTF-8, comments and the bodies of macros too, and where a
    /// body never ends; of both the one that begins at the lower line.
    #[tactic(auto, unfolding(crate::specs::Scripts::script_of))]
    pub fn read(alloc: Global, bytes: &[u8]) -> Result<Script, Halt>
        ensures { Returns (λ script. script) result (script_of bytes.now) }
    {
        let mut items = Items::new(alloc)?;
        let mut place = Place::Outside;
        let mut line: u64 = 1;
        let mut rest = bytes;
        while let Some((text, after)) = first_line(rest) {
            match str::from_utf8(text) {
                Ok(text) => place = take_line(alloc, &mut items, place, line, trim(text))?,
                Err(_) => return Err(Halt::Refused(bad_at(&place, line, after))),
            }
            rest = after;
            line += 1;
        }
        match place {
            Place::Outside => Ok(Script { items }),
            Place::Within { begun, .. } => {
                Err(Halt::Refused(Fault::UnclosedDefine { line: begun }))
            }
        }
    }

    /// What is run, in its order.
    pub fn items(&self) -> &[ScriptItem]
        ensures { result.now ≡ self.now }
    {
        self.items.as_slice()
    }
}
