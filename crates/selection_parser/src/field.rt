//! Fields of events that a pattern is looked for in.
ghost use Rattle.std.specs.Prelude.{◌≡◌};

/// The letters `a c n t b` after a pattern, in this order; all are false where none was written. (reposurgeon
/// manual, "Selection syntax")
#[derive(Clone, Copy, Debug, PartialEq, Eq)]
pub struct FieldSet {
    pub authors: bool,
    pub comments: bool,
    pub names: bool,
    pub taggers: bool,
    pub branches: bool,
}

impl FieldSet {
    ghost use Rattle.selection_parser.specs.Spelling.{with_field};

    /// No letter.
    pub const NONE: FieldSet = FieldSet {
        authors: false,
        comments: false,
        names: false,
        taggers: false,
        branches: false,
    };

    /// The set with the field of one letter more, if it is one.
    #[tactic(auto, unfolding(crate::specs::Spelling::with_field))]
    pub fn with(self, letter: u8) -> Option<FieldSet>
        ensures { result ≡ with_field self letter }
    {
        if letter == b'a' {
            Some(FieldSet {
                authors: true,
                ..self
            })
        } else if letter == b'c' {
            Some(FieldSet {
                comments: true,
                ..self
            })
        } else if letter == b'n' {
            Some(FieldSet {
                names: true,
                ..self
            })
        } else if letter == b't' {
            Some(FieldSet {
                taggers: true,
                ..self
            })
        } else if letter == b'b' {
            Some(FieldSet {
                branches: true,
                ..self
            })
        } else {
            None
        }
    }
}
