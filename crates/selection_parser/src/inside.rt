//! Where a byte leads inside a primary.
ghost use Rattle.std.specs.Prelude.{◌≡◌, ◌++◌, ◌∷◌, [], Some, None, IfOk};
ghost use Rattle.selection_parser.specs.Plain.PlainSelection.{Listed};
ghost use Rattle.selection_parser.specs.Reading.{
  item_of,
  number_spot,
  spot_begun,
  after_spot,
  in_spot,
  items_at,
  in_pattern,
  in_path,
  after_path_pattern,
  inside,
  primary_at,
};
ghost use Rattle.selection_parser.specs.Spelling.{ends_in_backslash};
ghost use Rattle.selection_parser.specs.Views.{Leads};
ghost use Rattle.selection_parser.specs.declared.place.Place.TheVariants.{Start, InName};
ghost use Rattle.selection_parser.specs.declared.place.SpotPlace.TheVariants.{InText};

use crate::digits::{Digits, is_digit};
use crate::field::FieldSet;
use crate::function::begins_name;
use crate::item::{Item, ItemList, Spot};
use crate::kind::KindSet;
use crate::place::{Place, SpotPlace};
use crate::selection::Selection;
use plain_model::{Items, NoMemory, Text};
use std::alloc::Global;

/// What a byte does inside a primary.
#[derive(Drop)]
pub enum Progress {
    /// It goes on in the primary.
    Within(Place),
    /// It doesn't, and this is the primary before it, if that may end here.
    After(Option<Selection>),
}

fn item_of(start: Option<Spot>, here: Spot) -> Item
    ensures { result ≡ item_of start here }
{
    match start {
        None => Item::One(here),
        Some(start) => Item::Span(start, here),
    }
}

fn number_spot(marked: bool, number: u64) -> Spot
    ensures { result ≡ number_spot marked number }
{
    if marked {
        Spot::Marked(number)
    } else {
        Spot::Number(number)
    }
}

// The first byte of a spot.
#[tactic(auto, unfolding(crate::specs::Reading::spot_begun))]
fn spot_begun(alloc: Global, byte: u8) -> Option<SpotPlace>
    ensures { result ≡ spot_begun byte }
{
    if is_digit(byte) {
        Some(SpotPlace::Digits {
            marked: false,
            digits: Digits::of(byte),
        })
    } else if byte == b':' {
        Some(SpotPlace::AfterColon)
    } else if byte == b'$' {
        Some(SpotPlace::After(Spot::Last))
    } else if byte == b'<' {
        Some(SpotPlace::InText(Items::empty(alloc)))
    } else {
        None
    }
}

// A byte after a spot of these items.
#[tactic(auto, using(crate::proofs::Layers::layers), unfolding(crate::specs::Reading::after_spot))]
fn after_spot(
    mut before: ItemList,
    start: Option<Spot>,
    here: Spot,
    byte: u8,
) -> Result<Progress, NoMemory>
    ensures { IfOk result (λ progress. Leads (after_spot before start here byte)
        (Some (Listed (before ++ item_of start here ∷ []))) progress) }
{
    if byte == b'.' && start.is_none() {
        return Ok(Progress::Within(Place::InItems {
            before,
            start: None,
            at: SpotPlace::AfterDot(here),
        }));
    }
    before.push(item_of(start, here))?;
    if byte == b',' {
        Ok(Progress::Within(Place::InItems {
            before,
            start: None,
            at: SpotPlace::Start,
        }))
    } else {
        Ok(Progress::After(Some(Selection::Items(before))))
    }
}

// A byte in a spot of these items.
#[tactic(auto, unfolding(crate::specs::Reading::in_spot))]
fn in_spot(
    alloc: Global,
    before: ItemList,
    start: Option<Spot>,
    at: SpotPlace,
    byte: u8,
) -> Result<Progress, NoMemory>
    ensures { IfOk result
        (λ progress. Leads (in_spot before start at byte) (items_at before start at) progress) }
{
    match at {
        SpotPlace::Start => match spot_begun(alloc, byte) {
            Some(at) => Ok(Progress::Within(Place::InItems { before, start, at })),
            None => Ok(Progress::After(None)),
        },
        SpotPlace::AfterColon => {
            if is_digit(byte) {
                Ok(Progress::Within(Place::InItems {
                    before,
                    start,
                    at: SpotPlace::Digits {
                        marked: true,
                        digits: Digits::of(byte),
                    },
                }))
            } else {
                Ok(Progress::After(None))
            }
        }
        SpotPlace::Digits { marked, mut digits } => {
            if is_digit(byte) && digits.has_room() {
                digits.push(byte);
                Ok(Progress::Within(Place::InItems {
                    before,
                    start,
                    at: SpotPlace::Digits { marked, digits },
                }))
            } else {
                after_spot(before, start, number_spot(marked, digits.number()), byte)
            }
        }
        SpotPlace::InText(text) => in_text(before, start, text, byte),
        SpotPlace::After(spot) => after_spot(before, start, spot, byte),
        SpotPlace::AfterDot(spot) => {
            if byte == b'.' {
                Ok(Progress::Within(Place::InItems {
                    before,
                    start: Some(spot),
                    at: SpotPlace::Start,
                }))
            } else {
                Ok(Progress::After(None))
            }
        }
    }
}

// A byte in a name, in angle brackets.
#[tactic(auto, unfolding(crate::specs::Reading::in_spot))]
fn in_text(
    before: ItemList,
    start: Option<Spot>,
    mut text: Text,
    byte: u8,
) -> Result<Progress, NoMemory>
    ensures { IfOk result (λ progress. Leads (in_spot before start (InText text) byte) None progress) }
{
    if byte != b'>' {
        text.push(byte)?;
        return Ok(Progress::Within(Place::InItems {
            before,
            start,
            at: SpotPlace::InText(text),
        }));
    }
    if text.as_slice().is_empty() {
        return Ok(Progress::After(None));
    }
    Ok(Progress::Within(Place::InItems {
        before,
        start,
        at: SpotPlace::After(Spot::Named(text)),
    }))
}

#[tactic(auto, using(crate::proofs::Backslashes::last_backslash))]
fn ends_in_backslash(pattern: &[u8]) -> bool
    ensures { result ≡ ends_in_backslash pattern.now }
{
    if pattern.is_empty() {
        return false;
    }
    pattern[pattern.len() - 1] == b'\\'
}

// A byte in a pattern: a slash after a backslash belongs to it, and any other one ends it.
#[tactic(auto, unfolding(crate::specs::Reading::in_pattern))]
fn in_pattern(bracketed: bool, mut pattern: Text, byte: u8) -> Result<Progress, NoMemory>
    ensures { IfOk result (λ progress. Leads (in_pattern bracketed pattern byte) None progress) }
{
    if byte != b'/' {
        pattern.push(byte)?;
        return Ok(Progress::Within(Place::InPattern { bracketed, pattern }));
    }
    if ends_in_backslash(pattern.as_slice()) {
        pattern.truncate(pattern.as_slice().len() - 1);
        pattern.push(b'/')?;
        return Ok(Progress::Within(Place::InPattern { bracketed, pattern }));
    }
    if pattern.as_slice().is_empty() {
        return Ok(Progress::After(None));
    }
    if bracketed {
        Ok(Progress::Within(Place::AfterPathPattern {
            pattern,
            whole: false,
        }))
    } else {
        Ok(Progress::Within(Place::InFields {
            pattern,
            fields: FieldSet::NONE,
        }))
    }
}

// A byte in a path, or its first one, which may begin a pattern.
#[tactic(auto, unfolding(crate::specs::Reading::in_path))]
fn in_path(mut path: Text, byte: u8) -> Result<Progress, NoMemory>
    ensures { IfOk result (λ progress. Leads (in_path path byte) None progress) }
{
    let begins = path.as_slice().is_empty();
    if begins && byte == b'/' {
        return Ok(Progress::Within(Place::InPattern {
            bracketed: true,
            pattern: path,
        }));
    }
    if byte == b']' {
        return if begins {
            Ok(Progress::After(None))
        } else {
            Ok(Progress::Within(Place::AfterPath(path)))
        };
    }
    path.push(byte)?;
    Ok(Progress::Within(Place::InPath(path)))
}

// A byte after the pattern of a path.
#[tactic(auto, unfolding(crate::specs::Reading::after_path_pattern))]
fn after_path_pattern(pattern: Text, whole: bool, byte: u8) -> Progress
    ensures { Leads (after_path_pattern pattern whole byte) None result }
{
    if byte == b']' {
        Progress::Within(Place::AfterBracket { pattern, whole })
    } else if byte == b'c' && !whole {
        Progress::Within(Place::AfterPathPattern {
            pattern,
            whole: true,
        })
    } else {
        Progress::After(None)
    }
}

// A byte in the name of a function.
#[tactic(auto, unfolding(crate::specs::Reading::inside))]
fn in_name(mut name: Text, byte: u8) -> Result<Progress, NoMemory>
    ensures { IfOk result (λ progress. Leads (inside (InName name) byte) None progress) }
{
    name.push(byte)?;
    if begins_name(name.as_slice()) {
        Ok(Progress::Within(Place::InName(name)))
    } else {
        Ok(Progress::After(None))
    }
}

// The first byte of a primary without parentheses.
#[tactic(auto, unfolding(crate::specs::Reading::inside))]
fn begun(alloc: Global, byte: u8) -> Progress
    ensures { Leads (inside Start byte) None result }
{
    if byte == b'=' {
        Progress::Within(Place::AfterEquals)
    } else if byte == b'/' {
        Progress::Within(Place::InPattern {
            bracketed: false,
            pattern: Items::empty(alloc),
        })
    } else if byte == b'[' {
        Progress::Within(Place::InPath(Items::empty(alloc)))
    } else {
        match spot_begun(alloc, byte) {
            Some(at) => Progress::Within(Place::InItems {
                before: Items::empty(alloc),
                start: None,
                at,
            }),
            None => Progress::After(None),
        }
    }
}

/// Where a byte leads inside a primary.
#[tactic(auto, using(crate::proofs::Layers::layers), unfolding(crate::specs::Reading::inside))]
pub fn inside(alloc: Global, place: Place, byte: u8) -> Result<Progress, NoMemory>
    ensures { IfOk result (λ progress. Leads (inside place byte) (primary_at place) progress) }
{
    match place {
        Place::Start => Ok(begun(alloc, byte)),
        Place::InName(name) => in_name(name, byte),
        Place::AfterEquals => match KindSet::NONE.with(byte) {
            Some(kinds) => Ok(Progress::Within(Place::InKinds(kinds))),
            None => Ok(Progress::After(None)),
        },
        Place::InKinds(kinds) => match kinds.with(byte) {
            Some(more) => Ok(Progress::Within(Place::InKinds(more))),
            None => Ok(Progress::After(Some(Selection::Kinds(kinds)))),
        },
        Place::InItems { before, start, at } => in_spot(alloc, before, start, at, byte),
        Place::InPattern { bracketed, pattern } => in_pattern(bracketed, pattern, byte),
        Place::InFields { pattern, fields } => match fields.with(byte) {
            Some(fields) => Ok(Progress::Within(Place::InFields { pattern, fields })),
            None => Ok(Progress::After(Some(Selection::Search { pattern, fields }))),
        },
        Place::InPath(path) => in_path(path, byte),
        Place::AfterPathPattern { pattern, whole } => Ok(after_path_pattern(pattern, whole, byte)),
        Place::AfterPath(path) => Ok(Progress::After(Some(Selection::AtPath(path)))),
        Place::AfterBracket { pattern, whole } => {
            Ok(Progress::After(Some(Selection::AtPattern { pattern, whole })))
        }
    }
}
