//! Words as texts.
ghost use Rattle.std.specs.Prelude.{◌≡◌};
ghost use Rattle.std.specs.Option.{option_copied};
ghost use Rattle.plain_model.specs.Faults.{Returns};
ghost use Rattle.script_lines.specs.Texts.{name_in, or_at_fault, text_before, texts_in};

use crate::fault::at_fault;
use crate::redirection::begins_with_sign;
use crate::script::LineList;
use crate::script_text::ScriptText;
use crate::word::Word;
use plain_model::{Copied, Halt, Items};
use std::alloc::Global;

/// The name that a last word is: it isn't broken, and no redirection.
pub fn name_in(word: &Word) -> Option<&ScriptText>
    ensures { option_copied result ≡ name_in word.now }
{
    match word {
        Word::Plain(text) if begins_with_sign(text.as_bytes()) => None,
        _ => word.whole(),
    }
}

/// The text that a word is, before such others. Only the last word can be a redirection.
pub fn said_before<'a>(
    alloc: Global,
    others: &[Word],
    word: &'a Word,
) -> Result<&'a ScriptText, Halt>
    ensures { Returns (λ text. text.now) result
        (or_at_fault word.now (text_before others.now word.now)) }
{
    let text = if others.is_empty() {
        name_in(word)
    } else {
        word.whole()
    };
    match text {
        Some(text) => Ok(text),
        None => Err(at_fault(alloc, word)),
    }
}

/// The same, copied.
pub fn text_before(alloc: Global, others: &[Word], word: &Word) -> Result<ScriptText, Halt>
    ensures { Returns (λ text. text) result
        (or_at_fault word.now (text_before others.now word.now)) }
{
    let text = said_before(alloc, others, word)?;
    Ok(text.copied(alloc)?)
}

/// All words as texts.
pub fn texts_in(alloc: Global, words: &[Word]) -> Result<LineList, Halt>
    ensures { Returns (λ texts. texts) result (texts_in words.now) }
{
    let mut texts = Items::new(alloc)?;
    for (i, word) in words.iter().enumerate() {
        texts.push(text_before(alloc, &words[i + 1..], word)?)?;
    }
    Ok(texts)
}
