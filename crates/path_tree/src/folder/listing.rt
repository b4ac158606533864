//! All paths of a folder.
ghost use Rattle.std.specs.Prelude.{◌≡◌, ◌++◌, IfOk, OnOk};
ghost use Rattle.plain_model.specs.Paths.{IsPath};
ghost use Rattle.path_tree.specs.Folders.{flat, prefixed, AllFit};
ghost use Rattle.path_tree.specs.Inside.{rows_in, rows_of};
ghost use Rattle.history_laws.specs.SoundTrees.{AllPaths};

use super::{Child, Folder, Node};
use plain_model::{EntryList, NoMemory, Path, PathFault};
use std::alloc::Global;
use std::rc::Rc;

fn path_of(alloc: Global, bytes: &[u8]) -> Result<Path, NoMemory>
    requires { IsPath bytes.now }
    ensures { IfOk result (λ path. path ≡ bytes.now) }
{
    match Path::new(alloc, bytes) {
        Ok(path) => Ok(path),
        Err(PathFault::Memory) => Err(NoMemory),
        Err(_) => unreachable!(),
    }
}

fn joined(alloc: Global, first: &[u8], second: &[u8]) -> Result<Vec<u8>, NoMemory>
    ensures { IfOk result (λ v. v.items ≡ first.now ++ second.now) }
{
    let mut both = Vec::from_slice(alloc, first)?;
    both.extend_from_slice(second)?;
    Ok(both)
}

/// Puts each path of the children, after the one given, with its entry at the end of the list.
#[cycle(listing)]
fn list_block(
    children: &[Child],
    alloc: Global,
    before: &[u8],
    list: &mut EntryList,
) -> Result<(), NoMemory>
    requires paths { AllPaths (prefixed before.now (flat (rows_of children.now))) }
    requires fit { AllFit (rows_of children.now) }
    ensures { OnOk result (list.new ≡ list.old ++ prefixed before.now (flat (rows_of children.now))) }
{
    for child in children {
        let path = joined(alloc, before, child.key.as_slice())?;
        match &child.node {
            Node::File(entry) => list.push((path_of(alloc, path.as_slice())?, *entry))?,
            Node::Subfolder(below) => below.list(alloc, path.as_slice(), list)?,
        }
    }
    Ok(())
}

/// Puts each path of the blocks' children, after the one given, with its entry at the end of the list.
#[cycle(listing)]
fn list_blocks(
    blocks: &[Rc<Vec<Child>>],
    alloc: Global,
    before: &[u8],
    list: &mut EntryList,
) -> Result<(), NoMemory>
    requires paths { AllPaths (prefixed before.now (flat (rows_in blocks.now))) }
    requires fit { AllFit (rows_in blocks.now) }
    ensures { OnOk result (list.new ≡ list.old ++ prefixed before.now (flat (rows_in blocks.now))) }
{
    for block in blocks {
        list_block(block.as_slice(), alloc, before, list)?;
    }
    Ok(())
}

impl Folder {
    /// Puts each path, after the one given, with its entry at the end of the list.
    #[cycle(listing)]
    pub(crate) fn list(
        &self,
        alloc: Global,
        before: &[u8],
        list: &mut EntryList,
    ) -> Result<(), NoMemory>
        requires { AllPaths (prefixed before.now self.now) }
        ensures { OnOk result (list.new ≡ list.old ++ prefixed before.now self.now) }
    {
        list_block(self.children.first.as_slice(), alloc, before, list)?;
        list_blocks(self.children.rest.as_slice(), alloc, before, list)
    }
}
