//! What failed outside, for who runs the program.
ghost use Rattle.std.specs.Prelude.{◌≡◌, ◌++◌, codes, IfOk, OnOk, unwrap_or};
ghost use Rattle.std.specs.Fmt.{decimal};
ghost use Rattle.std.specs.Option.{option_copied};
ghost use Rattle.std.specs.IoError.{raw_os_error};
ghost use Rattle.surgeon_store.specs.Trouble.{
  doing_text,
  error_number,
  error_text,
  kind_text,
  reason_text,
  trouble_line,
};

use plain_model::{Items, NoMemory, Text};
use std::alloc::Global;
use std::io;
use std::io::ErrorKind;

/// What was done as a call of the system failed.
#[derive(Clone, Copy, Debug, PartialEq, Eq)]
pub enum Doing {
    Reading,
    Writing,
    /// Writing to standard output.
    Printing,
}

/// A call of the system that failed. The name is the file's; it is missing where there was no memory to keep it, and
/// standard output has none. (own)
#[derive(Drop)]
pub struct Trouble {
    pub doing: Doing,
    pub name: Option<Text>,
    pub reason: io::Error,
}

// The reasons that have words here: those that files and pipes have.
pub(crate) fn words_of(kind: ErrorKind) -> Option<&'static [u8]>
    ensures { option_copied result ≡ kind_text kind }
{
    match kind {
        ErrorKind::PermissionDenied => Some(b"permission denied"),
        ErrorKind::NotFound => Some(b"no such file or folder"),
        ErrorKind::NotADirectory => Some(b"a part of its path is no folder"),
        ErrorKind::IsADirectory => Some(b"it is a folder"),
        ErrorKind::InvalidFilename => Some(b"its name is too long"),
        ErrorKind::FilesystemLoop => Some(b"too many links in its path"),
        ErrorKind::ReadOnlyFilesystem => Some(b"the file system is read-only"),
        ErrorKind::AlreadyExists => Some(b"no name is left for a new file beside it"),
        ErrorKind::StorageFull => Some(b"no space left on the device"),
        ErrorKind::QuotaExceeded => Some(b"the quota is used up"),
        ErrorKind::FileTooLarge => Some(b"the file is too large"),
        ErrorKind::BrokenPipe => Some(b"broken pipe"),
        ErrorKind::WouldBlock => Some(b"it isn't ready"),
        ErrorKind::WriteZero => Some(b"it takes no bytes"),
        ErrorKind::Interrupted => Some(b"interrupted too often"),
        ErrorKind::TimedOut => Some(b"timed out"),
        ErrorKind::ResourceBusy => Some(b"it is in use"),
        ErrorKind::ExecutableFileBusy => Some(b"it is a program that runs"),
        ErrorKind::StaleNetworkFileHandle => Some(b"stale network file handle"),
        ErrorKind::InvalidInput => Some(b"invalid argument"),
        ErrorKind::Unsupported => Some(b"not supported"),
        ErrorKind::OutOfMemory => Some(b"out of memory"),
        _ => None,
    }
}

// The system's number of an error; 0 where it has none.
fn number_of(error: &io::Error) -> u32
    ensures { result ≡ error_number (raw_os_error error.now) }
{
    match error.raw_os_error() {
        Some(code) => code.unsigned_abs(),
        None => 0,
    }
}

// Puts the system's number of an error at the end of a line.
fn push_number(line: &mut Text, number: u32) -> Result<(), NoMemory>
    ensures { OnOk result
        (line.new ≡ line.old ++ codes "error " ++ decimal number ++ codes " of the system") }
{
    line.push_all(b"error ")?;
    line.push_number(number as u64)?;
    line.push_all(b" of the system")
}

// Puts an error of a kind without words at the end of a line.
fn push_error(line: &mut Text, number: u32) -> Result<(), NoMemory>
    ensures { OnOk result (line.new ≡ line.old ++ error_text number) }
{
    match number {
        5 => line.push_all(b"input or output error"),
        9 => line.push_all(b"it is closed"),
        _ => push_number(line, number),
    }
}

// Puts a reason at the end of a line.
fn push_reason(line: &mut Text, reason: &io::Error) -> Result<(), NoMemory>
    ensures { OnOk result (line.new ≡ line.old ++ reason_text reason.now) }
{
    match words_of(reason.kind()) {
        Some(words) => line.push_all(words),
        None => push_error(line, number_of(reason)),
    }
}

// The name of a file, if it is known.
fn name_of(name: &Option<Text>) -> &[u8]
    ensures { result.now ≡ unwrap_or name.now (codes "a file") }
{
    match name {
        Some(name) => name.as_slice(),
        None => b"a file",
    }
}

// Puts a verb and a file's name at the end of a line.
fn push_named(line: &mut Text, verb: &[u8], name: &Option<Text>) -> Result<(), NoMemory>
    ensures { OnOk result
        (line.new ≡ line.old ++ verb.now ++ unwrap_or name.now (codes "a file")) }
{
    line.push_all(verb)?;
    line.push_all(name_of(name))
}

// Puts what was done at the end of a line.
fn push_doing(line: &mut Text, doing: Doing, name: &Option<Text>) -> Result<(), NoMemory>
    ensures { OnOk result (line.new ≡ line.old ++ doing_text doing name.now) }
{
    match doing {
        Doing::Reading => push_named(line, b"read ", name),
        Doing::Writing => push_named(line, b"write ", name),
        Doing::Printing => line.push_all(b"write to standard output"),
    }
}

impl Trouble {
    /// The line that says what failed, and why.
    pub fn line(&self, alloc: Global) -> Result<Text, NoMemory>
        ensures { IfOk result (λ line. line ≡ trouble_line self.now) }
    {
        let mut line = Items::of(alloc, b"surgeon: can't ")?;
        push_doing(&mut line, self.doing, &self.name)?;
        line.push_all(b": ")?;
        push_reason(&mut line, &self.reason)?;
        line.push(b'\n')?;
        Ok(line)
    }
}
