//! File operations of a commit.
ghost use Rattle.std.specs.Prelude.{◌≡◌, IfOk};

use crate::id::BlobId;
use crate::list::{Copied, Items, NoMemory};
use crate::object::ObjectId;
use crate::path::Path;
use std::alloc::Global;

/// What kind of thing is at a path: 100644, 100755, 120000, 160000. (git-fast-import, `<mode>`.)
#[derive(Clone, Copy, Debug, PartialEq, Eq)]
pub enum Mode {
    Plain,
    Executable,
    Link,
    Gitlink,
}

/// What is at a path: a blob of the history, or an object outside it.
#[derive(Clone, Copy)]
pub enum Content {
    Blob(BlobId),
    Object(ObjectId),
}

/// A path's mode and content in a tree.
#[derive(Clone, Copy)]
pub struct Entry {
    pub mode: Mode,
    pub content: Content,
}

/// A change of a tree. (git-fast-import, `M`, `D`, `C`, `R`, `deleteall`.)
#[derive(Drop)]
pub enum FileOp {
    Modify {
        mode: Mode,
        content: Content,
        path: Path,
    },
    Delete {
        path: Path,
    },
    Copy {
        source: Path,
        target: Path,
    },
    Rename {
        source: Path,
        target: Path,
    },
    DeleteAll,
}

/// The operations of a commit, in order.
pub type OpList = Items<FileOp>;

/// Paths, each with what is there.
pub type EntryList = Items<(Path, Entry)>;

impl Copied for Entry {
    fn copied(&self, _alloc: Global) -> Result<Entry, NoMemory> {
        Ok(*self)
    }
}

impl Copied for FileOp {
    fn copied(&self, alloc: Global) -> Result<FileOp, NoMemory> {
        match self {
            FileOp::Modify {
                mode,
                content,
                path,
            } => Ok(FileOp::Modify {
                mode: *mode,
                content: *content,
                path: path.copied(alloc)?,
            }),
            FileOp::Delete { path } => Ok(FileOp::Delete {
                path: path.copied(alloc)?,
            }),
            FileOp::Copy { source, target } => Ok(FileOp::Copy {
                source: source.copied(alloc)?,
                target: target.copied(alloc)?,
            }),
            FileOp::Rename { source, target } => Ok(FileOp::Rename {
                source: source.copied(alloc)?,
                target: target.copied(alloc)?,
            }),
            FileOp::DeleteAll => Ok(FileOp::DeleteAll),
        }
    }
}
