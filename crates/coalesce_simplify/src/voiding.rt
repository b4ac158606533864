//! The operations of a commit that later ones don't make void.
ghost use Rattle.std.specs.Prelude.{
  ◌≡◌,
  ◌<◌,
  ◌∷◌,
  [],
  Some,
  false,
  length,
  replicate,
  slice_get,
  slice_index_or,
  IfOk,
  MatchOption,
  OnOk,
};
ghost use Rattle.std.specs.List.{list_any};
ghost use Rattle.coalesce_simplify.specs.Voiding.{AreVoid, Knows, void_by};
ghost use Rattle.simplify_laws.specs.Simplify.{simpler};

use byte_sets::ByteSet;
use plain_model::{Copied, FileOp, NoMemory, OpList};
use std::alloc::Global;
use std::marker::Model;

// What is known of the operations after one: whether there is a `deleteall`, and which paths are put and deleted before
// the first copy or rename.
#[derive(Drop)]
struct Later<'a> {
    anew: bool,
    put: ByteSet<'a>,
    deleted: ByteSet<'a>,
}

impl<'a> Model for Later<'a> {
    ghost use Rattle.coalesce_simplify.specs.Voiding.{Known};

    ghost Value = { Known };

    ghost view = { λ l. record { anew = l.anew; put = l.put; deleted = l.deleted } };
}

impl<'a> Later<'a> {
    // No operation is later.
    fn new(alloc: Global) -> Later<'a>
        ensures { Knows [] result }
    {
        Later {
            anew: false,
            put: ByteSet::new(alloc),
            deleted: ByteSet::new(alloc),
        }
    }

    // Whether they make an operation void.
    fn is_void(&self, op: &FileOp) -> bool
        ensures { result ≡ void_by self.now op.now }
    {
        match op {
            FileOp::Modify { path, .. } => self.anew || self.put.has(path.as_bytes()),
            FileOp::Delete { path } => self.anew
                || self.put.has(path.as_bytes())
                || self.deleted.has(path.as_bytes()),
            _ => self.anew,
        }
    }

    // What was put or deleted isn't any more, by a copy or a rename.
    fn forget(&mut self)
        ensures { self.new ≡ record self.old { put = []; deleted = [] } }
    {
        self.put.clear();
        self.deleted.clear();
    }

    // Notes an operation before them.
    fn note(&mut self, op: &'a FileOp) -> Result<(), NoMemory>
        ensures { OnOk result ((later : _) → Knows later self.old → Knows (op.now ∷ later) self.new) }
    {
        match op {
            FileOp::Modify { path, .. } => self.put.add(path.as_bytes()),
            FileOp::Delete { path } => self.deleted.add(path.as_bytes()),
            FileOp::Copy { .. } => {
                self.forget();
                Ok(())
            }
            FileOp::Rename { .. } => {
                self.forget();
                Ok(())
            }
            FileOp::DeleteAll => {
                self.anew = true;
                Ok(())
            }
        }
    }
}

// The operation at a place.
fn nth(ops: &[FileOp], place: usize) -> &FileOp
    requires { place < length ops.now }
    ensures { slice_get ops.now place ≡ Some result.now }
{
    &ops[place]
}

// The flag at a place.
fn flag_at(flags: &[bool], place: usize) -> bool
    requires { place < length flags.now }
    ensures { result ≡ slice_index_or flags.now place false }
{
    flags[place]
}

// No flag at any place.
fn no_flags(alloc: Global, count: usize) -> Result<Vec<bool>, NoMemory>
    ensures { IfOk result (λ flags. flags.items ≡ replicate count false) }
{
    Ok(vec![in alloc; false; count]?)
}

// For each operation whether it is void, in one pass from the end.
fn void_flags(alloc: Global, ops: &[FileOp]) -> Result<Vec<bool>, NoMemory>
    ensures { IfOk result (λ flags. AreVoid ops.now 0 flags.items) }
{
    let count = ops.len();
    let mut flags = no_flags(alloc, count)?;
    let mut later = Later::new(alloc);
    for done in 0..count {
        let op = nth(ops, count - 1 - done);
        flags[count - 1 - done] = later.is_void(op);
        later.note(op)?;
    }
    Ok(flags)
}

// Whether there is a flag.
fn has_flag(flags: &[bool]) -> bool
    ensures { result ≡ list_any (λ flag. flag) flags.now }
{
    for flag in flags {
        if *flag {
            return true;
        }
    }
    false
}

// Copies of the operations without a flag.
fn unflagged(alloc: Global, ops: &[FileOp], flags: &[bool]) -> Result<OpList, NoMemory>
    requires { AreVoid ops.now 0 flags.now }
    ensures { IfOk result (λ left. left ≡ simpler ops.now) }
{
    let mut left = OpList::new(alloc)?;
    for place in 0..ops.len() {
        if !flag_at(flags, place) {
            left.push(nth(ops, place).copied(alloc)?)?;
        }
    }
    Ok(left)
}

/// Copies of the operations that aren't void, if there are void ones.
pub fn simpler(alloc: Global, ops: &[FileOp]) -> Result<Option<OpList>, NoMemory>
    ensures { IfOk result
        (λ found. MatchOption found (simpler ops.now ≡ ops.now) (λ left. left ≡ simpler ops.now)) }
{
    let flags = void_flags(alloc, ops)?;
    if !has_flag(&flags) {
        return Ok(None);
    }
    Ok(Some(unflagged(alloc, ops, &flags)?))
}
