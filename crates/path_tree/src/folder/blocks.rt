//! All children of a folder: in one block where they are few, and else in blocks that a copy of the folder
//! shares, so that a change copies one of them at most. No block but the first is empty.
ghost use Rattle.std.specs.Prelude.{◌≡◌, ◌<◌, ◌+◌, MatchOption, Some, None, [], length, take, drop};
ghost use Rattle.std.specs.Prelude.{option_map, IfOk, OnErr};
ghost use Rattle.plain_model.specs.Trees.{at};
ghost use Rattle.path_tree.specs.Folders.{tree_under, AreSound, Fits};
ghost use Rattle.path_tree.specs.Inside.{all_rows, blocks_of, member_of, rows_in, rows_of, AreFilled};
ghost use Rattle.path_tree.specs.PathMaps.{IsInOrder};
ghost use Rattle.path_tree.specs.Rows.{begins_by, IsAround, IsBlock, IsExchange};

use super::block::{find_in, put_child, remove_child, shared};
use super::extent::Change;
use super::{Child, Children, Folder, Node};
use plain_model::NoMemory;
use std::alloc::Global;
use std::rc::Rc;

/// How many children a block has at most: a change of a shared folder copies as many. (own)
const FULL: usize = 32;

/// How many of them stay in a block that is split. (own)
const HALF: usize = 16;

/// Whether the block's first key isn't after the key.
fn is_begun(block: &[Child], key: &[u8]) -> bool
    ensures { result ≡ begins_by key.now (rows_of block.now) }
{
    match block.first() {
        None => true,
        Some(child) => !key.cmp(child.key.as_slice()).is_lt(),
    }
}

/// The block after the first in which the key is, if it is in one of them.
pub(super) fn place(children: &Children, key: &[u8]) -> Option<usize>
    requires order { IsInOrder (all_rows children.now) }
    requires filled { AreFilled (blocks_of children.now.rest.items) }
    ensures { IsBlock key.now children.now result }
{
    let rest = children.rest.as_slice();
    let count = rest.partition_point(
        |block: &Rc<Vec<Child>>| -> bool
            ensures { result ≡ begins_by key.entry.now (rows_of block.now.value.items) }
        { is_begun(block.as_slice(), key) },
    );
    if count == 0 { None } else { Some(count - 1) }
}

/// The block in which the key is.
fn block_at<'a>(children: &'a Children, key: &[u8]) -> &'a [Child]
    requires order { IsInOrder (all_rows children.now) }
    requires filled { AreFilled (blocks_of children.now.rest.items) }
    ensures { IsAround key.now (all_rows children.now) (rows_of result.now) }
{
    match place(children, key) {
        None => children.first.as_slice(),
        Some(index) => children.rest[index].as_slice(),
    }
}

/// What is under the key.
pub(super) fn find<'a>(children: &'a Children, key: &[u8]) -> Option<&'a Node>
    requires order { IsInOrder (all_rows children.now) }
    requires filled { AreFilled (blocks_of children.now.rest.items) }
    ensures { option_map (λ n. member_of n.now) result ≡ at (all_rows children.now) key.now }
{
    find_in(block_at(children, key), key)
}

/// The folder under the key.
pub(super) fn folder_under<'a>(children: &'a Children, key: &[u8]) -> Option<&'a Rc<Folder>>
    requires order { IsInOrder (all_rows children.now) }
    requires filled { AreFilled (blocks_of children.now.rest.items) }
    ensures { let tree = tree_under (at (all_rows children.now) key.now) in
        MatchOption result (tree ≡ []) (λ f. f.now.value ≡ tree) }
{
    match find(children, key) {
        None => None,
        Some(Node::File(_)) => None,
        Some(Node::Subfolder(below)) => Some(below),
    }
}

/// The same blocks, with one more owner of each.
fn shared_blocks(alloc: Global, blocks: &[Rc<Vec<Child>>]) -> Result<Vec<Rc<Vec<Child>>>, NoMemory>
    ensures { IfOk result (λ v. blocks_of v.items ≡ blocks_of blocks.now) }
{
    let mut shared = Vec::with_capacity(alloc, blocks.len())?;
    for block in blocks {
        let block = block.clone()?;
        shared.push(block)?;
    }
    Ok(shared)
}

/// The same children: the first block is copied, and the others are shared.
pub(super) fn copied(alloc: Global, children: &Children) -> Result<Children, NoMemory>
    ensures rows { IfOk result (λ c. all_rows c ≡ all_rows children.now) }
    ensures blocks { IfOk result (λ c. blocks_of c.rest.items ≡ blocks_of children.now.rest.items) }
{
    let first = shared(alloc, children.first.as_slice())?;
    let rest = shared_blocks(alloc, children.rest.as_slice())?;
    Ok(Children { first, rest })
}

/// Makes a block of its own of the last children of the first block, if that is full.
fn split_first(children: &mut Children, alloc: Global) -> Result<(), NoMemory>
    requires { AreFilled (blocks_of children.old.rest.items) }
    ensures rows { all_rows children.new ≡ all_rows children.old }
    ensures filled { AreFilled (blocks_of children.new.rest.items) }
{
    if children.first.len() < FULL {
        return Ok(());
    }
    let (_, last) = children.first.as_slice().split_at(HALF);
    let last = shared(alloc, last)?;
    children.rest.insert(0, Rc::new(alloc, last)?)?;
    children.first.truncate(HALF);
    Ok(())
}

/// Makes two blocks of the one at the index, if it is full.
fn split(blocks: &mut Vec<Rc<Vec<Child>>>, alloc: Global, index: usize) -> Result<(), NoMemory>
    requires within { index < length blocks.old.items }
    requires filled { AreFilled (blocks_of blocks.old.items) }
    ensures rows { rows_in blocks.new.items ≡ rows_in blocks.old.items }
    ensures filled { AreFilled (blocks_of blocks.new.items) }
{
    let block = blocks[index].as_slice();
    if block.len() < FULL {
        return Ok(());
    }
    let (first, last) = block.split_at(HALF);
    let first = Rc::new(alloc, shared(alloc, first)?)?;
    let last = Rc::new(alloc, shared(alloc, last)?)?;
    blocks.insert(index + 1, last)?;
    blocks[index] = first;
    Ok(())
}

/// Makes room for one more child in the block in which the key is.
fn make_room(children: &mut Children, alloc: Global, key: &[u8]) -> Result<(), NoMemory>
    requires order { IsInOrder (all_rows children.old) }
    requires filled { AreFilled (blocks_of children.old.rest.items) }
    ensures rows { all_rows children.new ≡ all_rows children.old }
    ensures filled { AreFilled (blocks_of children.new.rest.items) }
{
    match place(children, key) {
        None => split_first(children, alloc),
        Some(index) => split(&mut children.rest, alloc, index),
    }
}

/// Puts the node under the key: in place where this is the block's one owner, and else in a copy.
fn put_in(
    block: &mut Rc<Vec<Child>>,
    alloc: Global,
    key: &[u8],
    node: Node,
) -> Result<Change, NoMemory>
    requires sound { AreSound (rows_of block.old.value.items) }
    requires fits { Fits key.now (member_of node) }
    ensures exchanged { IfOk result (λ change. IsExchange key.now (Some (member_of node)) change
        (rows_of block.old.value.items) (rows_of block.new.value.items)) }
    ensures unchanged { OnErr result (rows_of block.new.value.items ≡ rows_of block.old.value.items) }
{
    match Rc::get_mut(block) {
        Some(own) => put_child(own, alloc, key, node),
        None => {
            let mut copy = shared(alloc, block.as_slice())?;
            let change = put_child(&mut copy, alloc, key, node)?;
            *block = Rc::new(alloc, copy)?;
            Ok(change)
        }
    }
}

/// Puts the node under the key, in the place of what was there.
pub(super) fn put(
    children: &mut Children,
    alloc: Global,
    key: &[u8],
    node: Node,
) -> Result<Change, NoMemory>
    requires sound { AreSound (all_rows children.old) }
    requires filled { AreFilled (blocks_of children.old.rest.items) }
    requires fits { Fits key.now (member_of node) }
    ensures exchanged { IfOk result (λ change. IsExchange key.now (Some (member_of node)) change
        (all_rows children.old) (all_rows children.new)) }
    ensures filled { AreFilled (blocks_of children.new.rest.items) }
    ensures unchanged { OnErr result (all_rows children.new ≡ all_rows children.old) }
{
    make_room(children, alloc, key)?;
    match place(children, key) {
        None => put_child(&mut children.first, alloc, key, node),
        Some(index) => put_in(&mut children.rest[index], alloc, key, node),
    }
}

/// Removes what is under the key: in place where this is the block's one owner, and else in a copy.
fn remove_in(block: &mut Rc<Vec<Child>>, alloc: Global, key: &[u8]) -> Result<Change, NoMemory>
    requires { AreSound (rows_of block.old.value.items) }
    ensures exchanged { IfOk result (λ change. IsExchange key.now None change
        (rows_of block.old.value.items) (rows_of block.new.value.items)) }
    ensures unchanged { OnErr result (rows_of block.new.value.items ≡ rows_of block.old.value.items) }
{
    match Rc::get_mut(block) {
        Some(own) => Ok(remove_child(own, key)),
        None => {
            let mut copy = shared(alloc, block.as_slice())?;
            let change = remove_child(&mut copy, key);
            *block = Rc::new(alloc, copy)?;
            Ok(change)
        }
    }
}

/// Removes the block at the index if it is empty.
pub(super) fn drop_empty(blocks: &mut Vec<Rc<Vec<Child>>>, index: usize)
    requires within { index < length blocks.old.items }
    requires filled { AreFilled (blocks_of (take index blocks.old.items)) }
    requires filled_after { AreFilled (blocks_of (drop (index + 1) blocks.old.items)) }
    ensures rows { rows_in blocks.new.items ≡ rows_in blocks.old.items }
    ensures filled { AreFilled (blocks_of blocks.new.items) }
{
    if blocks[index].as_slice().is_empty() {
        blocks.remove(index);
    }
}

/// Removes what is under the key.
pub(super) fn remove(children: &mut Children, alloc: Global, key: &[u8]) -> Result<Change, NoMemory>
    requires sound { AreSound (all_rows children.old) }
    requires filled { AreFilled (blocks_of children.old.rest.items) }
    ensures exchanged { IfOk result (λ change. IsExchange key.now None change
        (all_rows children.old) (all_rows children.new)) }
    ensures filled { AreFilled (blocks_of children.new.rest.items) }
    ensures unchanged { OnErr result (all_rows children.new ≡ all_rows children.old) }
{
    match place(children, key) {
        None => Ok(remove_child(&mut children.first, key)),
        Some(index) => {
            let change = remove_in(&mut children.rest[index], alloc, key)?;
            drop_empty(&mut children.rest, index);
            Ok(change)
        }
    }
}
