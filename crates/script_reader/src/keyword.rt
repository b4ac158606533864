//! Command words.
ghost use Rattle.std.specs.Prelude.{◌≡◌};
ghost use Rattle.script_reader.specs.Keywords.{
  keyword_of,
  listing_of,
  other_of,
  plain_word_of,
};
ghost use Rattle.script_reader.specs.Selecting.{takes_selection};

use crate::command::Listing;
use crate::edit::EditWord;

/// A command word. (reposurgeon manual)
#[derive(Clone, Copy)]
pub enum Keyword {
    /// A command that takes no selection.
    Plain(PlainWord),
    Assign,
    Graft,
    Divide,
    Do,
    Define,
    /// A text of events is printed.
    Show(Listing),
    /// The history is edited.
    Edit(EditWord),
}

/// A command word that takes no selection.
#[derive(Clone, Copy)]
pub enum PlainWord {
    Read,
    Write,
    Choose,
    Drop,
    Renumber,
    Names,
    Summary,
    Sample,
    Expunge,
    Land,
    Authors,
    Unite,
}

impl PlainWord {
    /// The word without a selection that these bytes are.
    #[tactic(auto, unfolding(crate::specs::Keywords::plain_word_of))]
    fn of(word: &str) -> Option<PlainWord>
        ensures { result ≡ plain_word_of word.now }
    {
        match word {
            "read" => Some(PlainWord::Read),
            "write" => Some(PlainWord::Write),
            "choose" => Some(PlainWord::Choose),
            "drop" => Some(PlainWord::Drop),
            "renumber" => Some(PlainWord::Renumber),
            "names" => Some(PlainWord::Names),
            "summary" => Some(PlainWord::Summary),
            "sample" => Some(PlainWord::Sample),
            "expunge" => Some(PlainWord::Expunge),
            "msgin" => Some(PlainWord::Land),
            "authors" => Some(PlainWord::Authors),
            "unite" => Some(PlainWord::Unite),
            _ => None,
        }
    }
}

impl Listing {
    /// The word of a text of events that these bytes are.
    #[tactic(auto, unfolding(crate::specs::Keywords::listing_of))]
    fn of(word: &str) -> Option<Listing>
        ensures { result ≡ listing_of word.now }
    {
        match word {
            "list" => Some(Listing::List),
            "index" => Some(Listing::Index),
            "stamp" => Some(Listing::Stamp),
            "resolve" => Some(Listing::Resolve),
            "manifest" => Some(Listing::Manifest),
            "msgout" => Some(Listing::Messages),
            _ => None,
        }
    }
}

impl Keyword {
    // Each other command word.
    #[tactic(auto, unfolding(crate::specs::Keywords::other_of))]
    fn other(word: &str) -> Option<Keyword>
        ensures { result ≡ other_of word.now }
    {
        match word {
            "assign" => Some(Keyword::Assign),
            "graft" => Some(Keyword::Graft),
            "divide" => Some(Keyword::Divide),
            "do" => Some(Keyword::Do),
            "define" => Some(Keyword::Define),
            _ => None,
        }
    }

    /// The command word that these bytes are; case counts.
    pub fn of(word: &str) -> Option<Keyword>
        ensures { result ≡ keyword_of word.now }
    {
        if let Some(plain) = PlainWord::of(word) {
            return Some(Keyword::Plain(plain));
        }
        if let Some(edit) = EditWord::of(word) {
            return Some(Keyword::Edit(edit));
        }
        if let Some(what) = Listing::of(word) {
            return Some(Keyword::Show(what));
        }
        Keyword::other(word)
    }

    /// Whether a selection may be before it.
    pub fn takes_selection(self) -> bool
        ensures { result ≡ takes_selection self }
    {
        match self {
            Keyword::Plain(_) | Keyword::Define => false,
            Keyword::Edit(word) => word.may_select(),
            _ => true,
        }
    }
}
