//! Paths with the folders in which they are.
ghost use Rattle.std.specs.Prelude.{
  ◌≡◌,
  ◌==◌,
  ◌||◌,
  bytes_eq,
  count_by,
  false,
  nat_lt,
  IsFalse,
  IsTrue,
  OnOk,
};
ghost use Rattle.path_expunge.specs.declared.sides.TheConstants.{MOST_FOLDERS};
ghost use Rattle.path_expunge.specs.Apart.{IsWhole, is_in};
ghost use Rattle.plain_model.specs.Paths.{Bytes, do_conflict, is_below};

use byte_sets::ByteSet;
use plain_model::NoMemory;
use std::alloc::Global;

// So many folders a path has at most of which each is looked up.
const MOST_FOLDERS: usize = 32;

/// Whether a path is in too many folders to look each of them up.
pub fn is_deep(path: &[u8]) -> bool
    ensures { result ≡ nat_lt MOST_FOLDERS (count_by (λ byte. byte == 47) path.now) }
{
    path.iter().filter(|byte| **byte == b'/').count() > MOST_FOLDERS
}

// Puts each folder of a path into a set.
fn add_folders<'a>(folders: &mut ByteSet<'a>, path: &'a [u8]) -> Result<(), NoMemory>
    ensures { OnOk result ((folder : Bytes) →
        IsTrue (is_below folder path.now || is_in folder folders.old) →
        IsTrue (is_in folder folders.new)) }
{
    for place in 0..path.len() {
        if path[place] == b'/' {
            folders.add(&path[..place])?;
        }
    }
    Ok(())
}

// Whether some folder of a path is itself among some paths.
fn has_folder_in(paths: &ByteSet<'_>, path: &[u8]) -> bool
    ensures { IsFalse result → (folder : Bytes) → IsTrue (is_below folder path.now) →
        IsFalse (is_in folder paths.now) }
{
    for place in 0..path.len() {
        if path[place] == b'/' && paths.has(&path[..place]) {
            return true;
        }
    }
    false
}

/// Paths that operations name, and the folders of these.
#[derive(Drop)]
pub struct Side<'a> {
    pub paths: ByteSet<'a>,
    pub folders: ByteSet<'a>,
}

impl<'a> Side<'a> {
    /// No path.
    pub fn new(alloc: Global) -> Side<'a>
        ensures none { (path : Bytes) → is_in path result.paths ≡ false }
        ensures whole { IsWhole result }
    {
        Side {
            paths: ByteSet::new(alloc),
            folders: ByteSet::new(alloc),
        }
    }

    /// Whether a path is no folder of one of them, and in none that has the name of one.
    pub fn is_clear_of(&self, path: &[u8]) -> bool
        requires { IsWhole self.now }
        ensures { IsTrue result → (other : Bytes) → IsTrue (is_in other self.now.paths) →
            do_conflict path.now other ≡ false }
    {
        !self.folders.has(path) && !has_folder_in(&self.paths, path)
    }

    /// Puts a path in.
    pub fn add(&mut self, path: &'a [u8]) -> Result<(), NoMemory>
        requires { IsWhole self.old }
        ensures whole { OnOk result (IsWhole self.new) }
        ensures added { OnOk result ((other : Bytes) → is_in other self.new.paths
            ≡ (bytes_eq other path.now || is_in other self.old.paths)) }
    {
        self.paths.add(path)?;
        add_folders(&mut self.folders, path)
    }
}
