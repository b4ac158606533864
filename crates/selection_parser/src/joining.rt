//! Selections that are made of others.
ghost use Rattle.std.specs.Prelude.{◌≡◌, ◌++◌, ◌∷◌, [], map, IfOk};
ghost use Rattle.selection_parser.specs.Plain.{union_of, both_of, near};
ghost use Rattle.selection_parser.specs.Readers.{parts_of};
ghost use Rattle.selection_parser.specs.Reading.{called, whole, last_part};
ghost use Rattle.selection_parser.specs.Views.{plain_of};

use crate::function::Function;
use crate::reader::Parts;
use crate::selection::{Selection, SelectionList};
use plain_model::NoMemory;
use std::alloc::Global;

/// Selections joined by `|`: one alone is itself.
#[tactic(auto, using(crate::proofs::Joined::union_pushed))]
pub fn union_of(mut before: SelectionList, last: Selection) -> Result<Selection, NoMemory>
    ensures { IfOk result
        (λ made. plain_of made ≡ union_of (map plain_of before.items ++ plain_of last ∷ [])) }
{
    if before.is_empty() {
        return Ok(last);
    }
    before.push(last)?;
    Ok(Selection::Union(before))
}

/// Selections joined by `&`: one alone is itself.
#[tactic(auto, using(crate::proofs::Joined::both_pushed))]
pub fn both_of(mut before: SelectionList, last: Selection) -> Result<Selection, NoMemory>
    ensures { IfOk result
        (λ made. plain_of made ≡ both_of (map plain_of before.items ++ plain_of last ∷ [])) }
{
    if before.is_empty() {
        return Ok(last);
    }
    before.push(last)?;
    Ok(Selection::Both(before))
}

/// The whole selection of a depth, whose last term this is.
pub fn whole(last: Selection, parts: Parts) -> Result<Selection, NoMemory>
    ensures { IfOk result (λ made. plain_of made ≡ whole (plain_of last) (parts_of parts)) }
{
    let part = both_of(parts.boths, last)?;
    union_of(parts.unions, part)
}

/// With so many question marks after it.
#[tactic(auto, using(crate::proofs::Layers::layers))]
pub fn near(alloc: Global, times: u64, of: Selection) -> Result<Selection, NoMemory>
    ensures { IfOk result (λ made. plain_of made ≡ near times (plain_of of)) }
{
    if times == 0 {
        return Ok(of);
    }
    Ok(Selection::Near {
        times,
        of: Box::new(alloc, of)?,
    })
}

/// What is in parentheses, or a function of it.
#[tactic(auto, using(crate::proofs::Layers::layers))]
pub fn called(
    alloc: Global,
    function: Option<Function>,
    of: Selection,
) -> Result<Selection, NoMemory>
    ensures { IfOk result (λ made. plain_of made ≡ called function (plain_of of)) }
{
    match function {
        None => Ok(of),
        Some(function) => Ok(Selection::Call {
            function,
            of: Box::new(alloc, of)?,
        }),
    }
}
