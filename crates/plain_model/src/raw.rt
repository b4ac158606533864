//! Operations as a stream spells them: fields are read, and nothing is looked up yet.

use crate::mark::Mark;
use crate::object::ObjectId;
use crate::operation::Mode;
use crate::path::Path;

/// Where a path is in its line: at the end, or before a space and another path. (git-fast-import, `C`, `R`.)
#[derive(Clone, Copy, Debug, PartialEq, Eq)]
pub enum Place {
    Last,
    Source,
}

/// What `M` puts at a path as it is spelled: the mark of a blob, an object outside the stream, or bytes that follow
/// the line in a block of data. (git-fast-import, `<dataref>`.)
#[derive(Clone, Copy)]
pub enum RawContent {
    Marked(Mark),
    Object(ObjectId),
    Inline,
}

/// A change of a tree as it is spelled. (git-fast-import, `M`, `D`, `C`, `R`, `deleteall`.)
#[derive(Drop)]
pub enum RawOp {
    Modify {
        mode: Mode,
        content: RawContent,
        path: Path,
    },
    Delete {
        path: Path,
    },
    Copy {
        source: Path,
        target: Path,
    },
    Rename {
        source: Path,
        target: Path,
    },
    DeleteAll,
}
