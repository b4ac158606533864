//! Kinds of events.
ghost use Rattle.std.specs.Prelude.{◌≡◌};

/// Kinds of events: `=` and letters out of `B C T R P H O M F Z`, in this order. (reposurgeon manual,
/// "Selection syntax")
#[derive(Clone, Copy, Debug, PartialEq, Eq)]
pub struct KindSet {
    pub blobs: bool,
    pub commits: bool,
    pub tags: bool,
    pub resets: bool,
    pub passes: bool,
    pub heads: bool,
    pub roots: bool,
    pub merges: bool,
    pub forks: bool,
    pub empties: bool,
}

impl KindSet {
    ghost use Rattle.selection_parser.specs.Spelling.{with_kind};

    /// No kind.
    pub const NONE: KindSet = KindSet {
        blobs: false,
        commits: false,
        tags: false,
        resets: false,
        passes: false,
        heads: false,
        roots: false,
        merges: false,
        forks: false,
        empties: false,
    };

    /// The set with the kind of one letter more, if it is one.
    #[tactic(auto, unfolding(crate::specs::Spelling::with_kind))]
    pub fn with(self, letter: u8) -> Option<KindSet>
        ensures { result ≡ with_kind self letter }
    {
        if letter == b'B' {
            Some(KindSet {
                blobs: true,
                ..self
            })
        } else if letter == b'C' {
            Some(KindSet {
                commits: true,
                ..self
            })
        } else if letter == b'T' {
            Some(KindSet { tags: true, ..self })
        } else if letter == b'R' {
            Some(KindSet {
                resets: true,
                ..self
            })
        } else if letter == b'P' {
            Some(KindSet {
                passes: true,
                ..self
            })
        } else if letter == b'H' {
            Some(KindSet {
                heads: true,
                ..self
            })
        } else if letter == b'O' {
            Some(KindSet {
                roots: true,
                ..self
            })
        } else if letter == b'M' {
            Some(KindSet {
                merges: true,
                ..self
            })
        } else if letter == b'F' {
            Some(KindSet {
                forks: true,
                ..self
            })
        } else if letter == b'Z' {
            Some(KindSet {
                empties: true,
                ..self
            })
        } else {
            None
        }
    }
}
