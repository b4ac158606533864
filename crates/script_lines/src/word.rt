//! Words.
ghost use Rattle.std.specs.Prelude.{◌≡◌};
ghost use Rattle.std.specs.Option.{option_copied};
ghost use Rattle.script_lines.specs.Texts.{whole_in};
ghost use Rattle.script_lines.specs.Words.{text_of};

use crate::script_text::ScriptText;
use plain_model::Items;

/// A word of a line after its command word. (own)
#[derive(Drop)]
pub enum Word {
    /// A word that doesn't begin with a quote, as it is.
    Plain(ScriptText),
    /// A word that was written in quotes, without them.
    Quoted(ScriptText),
    /// The rest of a line from a quote on that isn't closed, or whose closing quote something else
    /// follows. It is the last word.
    Broken(ScriptText),
}

/// Words, in their order.
pub type WordList = Items<Word>;

impl Word {
    /// What a fault tells of the word.
    pub fn text(&self) -> &ScriptText
        ensures { result.now ≡ text_of self.now }
    {
        match self {
            Word::Plain(text) => text,
            Word::Quoted(text) => text,
            Word::Broken(rest) => rest,
        }
    }

    /// The word without its quotes, if it isn't broken.
    pub fn whole(&self) -> Option<&ScriptText>
        ensures { option_copied result ≡ whole_in self.now }
    {
        match self {
            Word::Plain(text) | Word::Quoted(text) => Some(text),
            Word::Broken(_) => None,
        }
    }
}
