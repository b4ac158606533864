//! Words at fault.
ghost use Rattle.plain_model.specs.Faults.{Returns};
ghost use Rattle.plain_model.specs.declared.fault.Fault.TheVariants.{BadWords};
ghost use Rattle.script_lines.specs.Answering.{Refuses};
ghost use Rattle.script_lines.specs.Texts.{or_at_fault};
ghost use Rattle.script_lines.specs.Words.{text_of};

use crate::word::Word;
use plain_model::{Fault, Halt, Items, NoMemory};
use std::alloc::Global;

/// The refusal of a line with this word, which is the first at fault.
pub fn bad_words(alloc: Global, word: &[u8]) -> Halt
    ensures { Refuses result (BadWords word.now) }
{
    match Items::of(alloc, word) {
        Ok(word) => Halt::Refused(Fault::BadWords { word }),
        Err(NoMemory) => Halt::Memory,
    }
}

/// The same of a word.
pub fn at_fault(alloc: Global, word: &Word) -> Halt
    ensures { Refuses result (BadWords (text_of word.now)) }
{
    bad_words(alloc, word.text().as_bytes())
}

/// What a word was found to be, or its refusal.
pub fn or_at_fault<T>(alloc: Global, word: &Word, found: Option<T>) -> Result<T, Halt>
    ensures { Returns (λ x. x) result (or_at_fault word.now found) }
{
    match found {
        Some(found) => Ok(found),
        None => Err(at_fault(alloc, word)),
    }
}
