//! Names of repositories.
ghost use Rattle.std.specs.Prelude.{◌≡◌, IfOk, IsTrue, None, Some, if◌then◌else◌};
ghost use Rattle.script_lines.specs.Names.{is_repo_name};

use crate::names::is_repo_name;
use plain_model::{Items, NoMemory, Text};
use std::alloc::Global;
use std::marker::Model;

/// The name of a repository: 1 to 255 bytes, none of them a space, a control code or DEL. (own)
#[derive(Drop)]
pub struct RepoName {
    bytes: Text,
}

impl Model for RepoName {
    ghost use Rattle.std.specs.Prelude.{IsTrue, List, ℕ};
    ghost use Rattle.script_lines.specs.Names.{is_repo_name};

    ghost Value = { List ℕ };

    ghost view = { λ n. n.bytes };

    ghost invariant = { λ n. IsTrue (is_repo_name n.bytes) };
}

impl RepoName {
    /// The name that the bytes are, if a repository can have it.
    pub fn of(alloc: Global, bytes: &[u8]) -> Result<Option<RepoName>, NoMemory>
        ensures { IfOk result
            (λ name. name ≡ (if is_repo_name bytes.now then Some bytes.now else None)) }
    {
        if is_repo_name(bytes) {
            Ok(Some(RepoName {
                bytes: Items::of(alloc, bytes)?,
            }))
        } else {
            Ok(None)
        }
    }

    /// Its bytes, which a name can have.
    pub fn as_slice(&self) -> &[u8]
        ensures value { result.now ≡ self.now }
        ensures fits { IsTrue (is_repo_name self.now) }
    {
        self.bytes.as_slice()
    }
}
