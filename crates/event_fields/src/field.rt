//! Fields that a command sets.
ghost use Rattle.std.specs.Prelude.{◌≡◌};
ghost use Rattle.event_fields.specs.Values.{field_of, field_word};

/// A field of events: the comment of a commit or a tag, the branch of a commit or a reset, or the name of a tag. (reposurgeon
/// manual, `setfield`; which ones: own)
#[derive(Clone, Copy, Debug, PartialEq, Eq)]
pub enum Field {
    Comment,
    Branch,
    Name,
}

impl Field {
    /// The field that a word is.
    pub fn of(word: &[u8]) -> Option<Field>
        ensures { result ≡ field_of word.now }
    {
        if word == Field::Comment.text() {
            Some(Field::Comment)
        } else if word == Field::Branch.text() {
            Some(Field::Branch)
        } else if word == Field::Name.text() {
            Some(Field::Name)
        } else {
            None
        }
    }

    /// The word as it is written.
    pub fn text(self) -> &'static [u8]
        ensures { result.now ≡ field_word self }
    {
        match self {
            Field::Comment => b"comment",
            Field::Branch => b"branch",
            Field::Name => b"name",
        }
    }
}
