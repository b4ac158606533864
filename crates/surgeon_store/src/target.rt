//! A file of the system that is written, and takes the place of an older one only once it is whole. Nothing is reported
//! of its bytes, so this module is trusted where others are proved.
ghost use Rattle.std.specs.Prelude.{◌≡◌, ◌≤◌, ◌<◌, length, IfOk};

use crate::outside::Made;
use std::alloc::Global;
use std::fs::{OpenFile, OpenOptions, Permissions};
use std::io::{ErrorKind, Write};
use std::path::PathBuf;
use std::rt::Files;
use std::{fs, io};

/// How often a call that a signal interrupts is made before it counts as a fault. (own)
pub(crate) const MAX_TURNS: u32 = 64;

/// How many names are tried for a new file. (own)
const MAX_NAMES: u32 = 100;

/// A file that is written.
#[derive(Drop)]
pub(crate) struct Target<F> {
    file: F,
    // What becomes of it once it is whole; nothing where it is written directly.
    change: Option<Change>,
    // Why it won't be whole.
    fault: Option<io::Error>,
}

// A new file, and the path whose place it takes.
#[derive(Drop)]
struct Change {
    new: PathBuf<Global>,
    path: PathBuf<Global>,
}

impl Change {
    // The new file takes its place, if it was settled, or there is none.
    fn carry_out<R: Files>(&self, rt: &R, settled: io::Result<()>) -> io::Result<()> {
        let placed = match settled {
            Ok(()) => fs::rename(rt, self.new.as_path(), self.path.as_path()),
            Err(error) => Err(error),
        };
        if placed.is_err() {
            drop_new(rt, &self.new);
        }
        placed
    }

    // There is no new file.
    fn give_up<R: Files>(&self, rt: &R) {
        drop_new(rt, &self.new);
    }
}

// Where a file goes once it is whole, with the permissions of what is there.
#[derive(Drop)]
struct Place {
    path: PathBuf<Global>,
    permissions: Option<Permissions>,
}

// Writes a byte or more of the piece, again where a signal interrupts. A writer that takes nothing of a
// piece with bytes will not take the rest, which is a fault.
pub(crate) fn write_some<W: Write>(writer: &mut W, piece: &[u8]) -> io::Result<usize>
    ensures { IfOk result (λ n. (n ≤ length piece.now) × (0 < length piece.now → 1 ≤ n)) }
{
    if piece.is_empty() {
        return Ok(0);
    }
    for _ in 0..MAX_TURNS {
        match writer.write(piece) {
            Ok(0) => return Err(io::Error::from(ErrorKind::WriteZero)),
            Err(error) if error.kind() == ErrorKind::Interrupted => {}
            answer => return answer,
        }
    }
    Err(io::Error::from(ErrorKind::Interrupted))
}

// Has the system take what was written, so that a full disk shows here at the latest. What cannot be
// synced, as a pipe or a device, has taken its bytes already.
fn settle<F: Write + OpenFile>(file: &mut F) -> io::Result<()> {
    file.flush()?;
    match file.sync_all() {
        Ok(()) => Ok(()),
        Err(error) => match error.kind() {
            ErrorKind::InvalidInput | ErrorKind::Unsupported => Ok(()),
            _ => Err(error),
        },
    }
}

// The place of a regular file, or of none; a link is followed. Whatever else is there is written directly. What can't be
// looked at, or not be written itself, is a fault: to write it directly would empty an older file before the next call fails.
fn place_of<R: Files>(alloc: Global, rt: &R, name: &str) -> io::Result<Option<Place>> {
    match rt.metadata(name) {
        Ok(found) if found.is_file() => {
            let _ = OpenOptions::new().write(true).open(rt, name)?;
            let path = rt.canonicalize(alloc, name)?;
            Ok(Some(Place {
                path,
                permissions: Some(found.permissions()),
            }))
        }
        Ok(_) => Ok(None),
        Err(error) if error.kind() == ErrorKind::NotFound => place_of_none(alloc, rt, name),
        Err(error) => Err(error),
    }
}

// The place of a file where a link leads to nothing, which is written directly, or where nothing is.
fn place_of_none<R: Files>(alloc: Global, rt: &R, name: &str) -> io::Result<Option<Place>> {
    match rt.symlink_metadata(name) {
        Ok(_) => Ok(None),
        Err(error) if error.kind() == ErrorKind::NotFound => {
            let path = PathBuf::from_str(alloc, name)?;
            Ok(Some(Place {
                path,
                permissions: None,
            }))
        }
        Err(error) => Err(error),
    }
}

// A new file beside the path, or nothing where its folder doesn't allow one.
fn new_file<R: Files>(
    alloc: Global,
    rt: &R,
    path: &PathBuf<Global>,
) -> io::Result<Option<(R::File, PathBuf<Global>)>> {
    for number in 0..MAX_NAMES {
        let name = format!(in alloc; ".surgeon-new-{number}")?;
        let new = path.as_path().with_file_name(alloc, name.as_str())?;
        match OpenOptions::new()
            .write(true)
            .create_new(true)
            .open(rt, new.as_path())
        {
            Ok(file) => return Ok(Some((file, new))),
            Err(error) => match error.kind() {
                ErrorKind::AlreadyExists => {}
                ErrorKind::PermissionDenied | ErrorKind::ReadOnlyFilesystem => return Ok(None),
                _ => return Err(error),
            },
        }
    }
    Err(io::Error::from(ErrorKind::AlreadyExists))
}

// Nothing is left of a new file.
fn drop_new<R: Files>(rt: &R, new: &PathBuf<Global>) {
    let _ = fs::remove_file(rt, new.as_path());
}

impl<F: Write + OpenFile> Target<F> {
    /// Begins to write a file: a new one beside the path, or the file itself where that is none of the file system's
    /// own or where its folder takes no new file.
    pub(crate) fn begin<R: Files<File = F>>(
        alloc: Global,
        rt: &R,
        name: &str,
    ) -> io::Result<Target<F>> {
        let Some(place) = place_of(alloc, rt, name)? else {
            return Target::directly(rt, name);
        };
        let Some((file, new)) = new_file(alloc, rt, &place.path)? else {
            return Target::directly(rt, name);
        };
        if let Some(permissions) = place.permissions {
            if let Err(error) = file.set_permissions(permissions) {
                drop_new(rt, &new);
                return Err(error);
            }
        }
        Ok(Target {
            file,
            change: Some(Change {
                new,
                path: place.path,
            }),
            fault: None,
        })
    }

    fn directly<R: Files<File = F>>(rt: &R, name: &str) -> io::Result<Target<F>> {
        Ok(Target {
            file: fs::create(rt, name)?,
            change: None,
            fault: None,
        })
    }

    /// Writes a byte or more of the piece.
    pub(crate) fn write(&mut self, piece: &[u8]) -> io::Result<usize>
        ensures { IfOk result (λ n. (n ≤ length piece.now) × (0 < length piece.now → 1 ≤ n)) }
    {
        let answer = write_some(&mut self.file, piece);
        if let Err(error) = answer {
            self.fault = Some(error);
        }
        answer
    }

    /// What is written is in its place, where all of it was put and the system has it. Else the older file is left as it
    /// was, and no other: memory can run out between two pieces, which is no fault of the file.
    pub(crate) fn finish<R: Files<File = F>>(self, rt: &R, made: Made) -> io::Result<()> {
        let Target {
            mut file,
            change,
            fault,
        } = self;
        let settled = match (fault, made) {
            (Some(error), _) => Err(error),
            (None, Made::Whole) => settle(&mut file),
            (None, Made::Part) => {
                if let Some(change) = change {
                    change.give_up(rt);
                }
                return Ok(());
            }
        };
        match change {
            Some(change) => change.carry_out(rt, settled),
            None => settled,
        }
    }
}
