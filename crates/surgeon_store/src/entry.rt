//! Files as a list.

use plain_model::{Items, Text};

/// A file: a name and its bytes. A name is any bytes; only those of a `&str` can be asked for. (own)
#[derive(Drop)]
pub struct FileEntry {
    pub name: Text,
    pub bytes: Text,
}

/// Files, of which the first of two with one name counts. (own)
pub type FileList = Items<FileEntry>;
