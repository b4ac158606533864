//! The blob and the commit of one number, and their parts.
ghost use Rattle.std.specs.Prelude.{◌≡◌, ◌<◌, ◌≤◌, ◌∷◌, ◌++◌, [], decimal, IfOk, OnOk};
ghost use Rattle.plain_model.specs.Text.{line};
ghost use Rattle.sample_history.specs.Sample.{
  blob_number,
  blob_of,
  commit_number,
  commit_of,
  file,
  folder,
  ops_of,
  parents_of,
  path_in,
  signed_at,
};

use plain_model::{
    BlobId, CommitId, Content, Copied, EventList, FileOp, Items, Mark, Mode, NoMemory, OpList,
    ParentList, Path, Person, PlainEvent, Shared, Signed, Text, When,
};
use std::alloc::Global;

fn blob_number(number: u64) -> u64
    requires some { 1 ≤ number }
    requires few { number ≤ 200000 }
    ensures { result ≡ blob_number number }
{
    2 * number - 1
}

fn commit_number(number: u64) -> u64
    requires few { number ≤ 200000 }
    ensures { result ≡ commit_number number }
{
    2 * number
}

// A line of bytes and a number.
fn numbered_line(alloc: Global, before: &[u8], number: u64) -> Result<Text, NoMemory>
    ensures { IfOk result (λ text. text ≡ line (before.now ++ decimal number)) }
{
    let mut text = Items::of(alloc, before)?;
    text.push_number(number)?;
    text.push(b'\n')?;
    Ok(text)
}

// The bytes are a path, so that only memory can be wanting.
fn path_in(alloc: Global, folder: u64, file: u64) -> Result<Path, NoMemory>
    ensures { IfOk result (λ path. path ≡ path_in folder file) }
{
    let mut bytes = Items::of(alloc, b"d")?;
    bytes.push_number(folder)?;
    bytes.push_all(b"/f")?;
    bytes.push_number(file)?;
    match Path::new(alloc, bytes.as_slice()) {
        Ok(path) => Ok(path),
        Err(_) => Err(NoMemory),
    }
}

fn signed_at(alloc: Global, seconds: u64) -> Result<Signed, NoMemory>
    ensures { IfOk result (λ signed. signed ≡ signed_at seconds) }
{
    Ok(Signed {
        person: Shared::new(
            alloc,
            Person {
                name: Items::of(alloc, b"S")?,
                email: Items::of(alloc, b"s@example.com")?,
            },
        )?,
        when: When {
            seconds,
            minus: false,
            offset: 0,
        },
    })
}

fn parents_of(alloc: Global, number: u64, drawn: u64) -> Result<ParentList, NoMemory>
    requires few { number ≤ 200000 }
    ensures { IfOk result (λ parents. parents ≡ parents_of number drawn) }
{
    let mut parents = ParentList::new(alloc)?;
    if 1 < number {
        parents.push(CommitId::new(commit_number(number - 1)))?;
    }
    if 3 <= number && drawn % 10 == 0 {
        parents.push(CommitId::new(commit_number(1 + drawn / 10 % (number - 2))))?;
    }
    Ok(parents)
}

fn ops_of(alloc: Global, number: u64, drawn: u64) -> Result<OpList, NoMemory>
    requires some { 1 ≤ number }
    requires few { number ≤ 200000 }
    ensures { IfOk result (λ ops. ops ≡ ops_of number drawn) }
{
    let folder = drawn / 100 % 10;
    let file = drawn / 1000 % 50;
    let mut ops = OpList::new(alloc)?;
    ops.push(FileOp::Modify {
        mode: Mode::Plain,
        content: Content::Blob(BlobId::new(blob_number(number))),
        path: path_in(alloc, folder, file)?,
    })?;
    if 2 <= number && drawn % 13 == 0 {
        ops.push(FileOp::Delete {
            path: path_in(alloc, folder, (file + 1) % 50)?,
        })?;
    }
    Ok(ops)
}

pub fn blob_of(alloc: Global, number: u64, drawn: u64) -> Result<PlainEvent, NoMemory>
    requires some { 1 ≤ number }
    requires few { number ≤ 200000 }
    ensures { IfOk result (λ event. event ≡ blob_of number drawn) }
{
    let own = blob_number(number);
    Ok(PlainEvent::Blob {
        id: BlobId::new(own),
        mark: Mark::new(own).unwrap(),
        bytes: Shared::new(alloc, numbered_line(alloc, b"", drawn)?)?,
    })
}

pub fn commit_of(alloc: Global, number: u64, drawn: u64) -> Result<PlainEvent, NoMemory>
    requires some { 1 ≤ number }
    requires few { number ≤ 200000 }
    ensures { IfOk result (λ event. event ≡ commit_of number drawn) }
{
    let own = commit_number(number);
    let committer = signed_at(alloc, 60 * number)?;
    Ok(PlainEvent::Commit {
        id: CommitId::new(own),
        mark: Mark::new(own).unwrap(),
        branch: Shared::new(alloc, Items::of(alloc, b"refs/heads/master")?)?,
        author: committer.copied(alloc)?,
        committer,
        encoding: None,
        comment: numbered_line(alloc, b"commit ", number)?,
        parents: parents_of(alloc, number, drawn)?,
        ops: Shared::new(alloc, ops_of(alloc, number, drawn)?)?,
        aliases: Items::new(alloc)?,
    })
}
