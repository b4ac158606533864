//! Names of branches and tags.
ghost use Rattle.std.specs.Prelude.{◌≡◌};
ghost use Rattle.std.specs.List.{list_all};
ghost use Rattle.plain_model.specs.Fields.{name_in};
ghost use Rattle.plain_model.specs.Names.{is_name, is_name_byte};
ghost use Rattle.stream_fields.specs.Answers.{Gives};

use crate::fault::FieldFault;
use crate::repeated::Names;
use plain_model::{Items, MAX_NAME_BYTES, Shared, Text, Why};
use std::alloc::Global;

fn are_name_bytes(text: &[u8]) -> bool
    ensures { result ≡ list_all is_name_byte text.now }
{
    text.iter().all(|b| *b >= 33 && *b != 127)
}

fn fits_name(text: &[u8]) -> bool
    ensures { result ≡ is_name text.now }
{
    text.len() >= 1 && text.len() as u64 <= MAX_NAME_BYTES && are_name_bytes(text)
}

/// The name of a branch or a tag: 1 to 1,024 bytes, none of them a space, a control code or DEL. (git-fast-import,
/// `<ref>`; the bytes and the length: own.)
#[tactic(auto, unfolding(plain_model::specs::Fields::name_in))]
pub fn read_name(alloc: Global, text: &[u8]) -> Result<Text, FieldFault>
    ensures { Gives (λ name. name) result (name_in text.now) }
{
    if fits_name(text) {
        Ok(Items::of(alloc, text)?)
    } else {
        Err(FieldFault::Bad(Why::BadName))
    }
}

/// The name of a branch, which is kept once for all events that are on it.
#[tactic(auto, unfolding(plain_model::specs::Fields::name_in))]
pub fn read_branch(
    alloc: Global,
    names: &mut Names,
    text: &[u8],
) -> Result<Shared<Text>, FieldFault>
    ensures { Gives (λ name. name) result (name_in text.now) }
{
    if let Some(last) = names.last_branch(text) {
        return Ok(last.share()?);
    }
    if !fits_name(text) {
        return Err(FieldFault::Bad(Why::BadName));
    }
    let name = names.shared(alloc, text)?;
    names.keep_branch(&name)?;
    Ok(name)
}
