//! Paths of files.
ghost use Rattle.std.specs.Prelude.{◌≡◌, ◌⊎◌, ◌==◌, IfOk, IfErr};
ghost use Rattle.std.specs.List.{list_any};
ghost use Rattle.plain_model.specs.Paths.{components, is_empty, is_dots, path_fault, IsPath};

use crate::limit::MAX_PATH_BYTES;
use crate::list::{Copied, Items, NoMemory, Text};
use std::alloc::Global;
use std::marker::Model;

/// Why bytes are no path, in the order in which the rules are looked at; `Slash` is one at either end or
/// an empty component, `Dots` a component `.` or `..`.
#[derive(Clone, Copy, Debug, PartialEq, Eq)]
pub enum PathFault {
    Empty,
    TooLong,
    Slash,
    Dots,
    Nul,
    Memory,
}

/// A path of a file from the top of a tree: 1 to 4,096 bytes (own), components between single slashes, none
/// of them `.` or `..`, and no NUL. (git-fast-import, `<path>`.)
#[derive(Drop)]
pub struct Path {
    bytes: Text,
}

impl Model for Path {
    ghost use Rattle.std.specs.Prelude.{List, ℕ};
    ghost use Rattle.plain_model.specs.Paths.{IsPath};

    ghost Value = { List ℕ };

    ghost view = { λ p. p.bytes };

    ghost invariant = { λ p. IsPath p.bytes };
}

fn has_empty_component(bytes: &[u8]) -> bool
    ensures { result ≡ list_any is_empty (components bytes.now) }
{
    bytes.split(|b| *b == b'/').any(|part| part.is_empty())
}

fn are_dots(part: &[u8]) -> bool
    ensures { result ≡ is_dots part.now }
{
    matches!(part, [b'.'] | [b'.', b'.'])
}

fn has_dots(bytes: &[u8]) -> bool
    ensures { result ≡ list_any is_dots (components bytes.now) }
{
    bytes.split(|b| *b == b'/').any(are_dots)
}

fn has_nul(bytes: &[u8]) -> bool
    ensures { result ≡ list_any (λ b. b == 0) bytes.now }
{
    bytes.iter().any(|b| *b == 0)
}

fn fault_of(bytes: &[u8]) -> Option<PathFault>
    ensures { result ≡ path_fault bytes.now }
{
    if bytes.is_empty() {
        Some(PathFault::Empty)
    } else if bytes.len() as u64 > MAX_PATH_BYTES {
        Some(PathFault::TooLong)
    } else if has_empty_component(bytes) {
        Some(PathFault::Slash)
    } else if has_dots(bytes) {
        Some(PathFault::Dots)
    } else if has_nul(bytes) {
        Some(PathFault::Nul)
    } else {
        None
    }
}

impl Path {
    /// The path of these bytes, or the first rule that they break.
    pub fn new(alloc: Global, bytes: &[u8]) -> Result<Path, PathFault>
        ensures ok { IfOk result (λ path. (path ≡ bytes.now) × IsPath bytes.now) }
        ensures err { IfErr result
            (λ fault. (fault ≡ PathFault.Memory) ⊎ (path_fault bytes.now ≡ Some fault)) }
    {
        if let Some(fault) = fault_of(bytes) {
            return Err(fault);
        }
        match Items::of(alloc, bytes) {
            Ok(bytes) => Ok(Path { bytes }),
            Err(NoMemory) => Err(PathFault::Memory),
        }
    }

    pub fn as_bytes(&self) -> &[u8]
        ensures value { result.now ≡ self.now }
        ensures form { IsPath self.now }
    {
        self.bytes.as_slice()
    }
}

impl Copied for Path {
    fn copied(&self, alloc: Global) -> Result<Path, NoMemory> {
        Ok(Path {
            bytes: self.bytes.copied(alloc)?,
        })
    }
}
