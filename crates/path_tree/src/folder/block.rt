//! The children in one block of a folder, by their keys.
ghost use Rattle.std.specs.Prelude.{◌≡◌, Some, None, ◌≤◌, length};
ghost use Rattle.std.specs.Prelude.{take, drop, option_map, IfOk, IfErr, OnErr};
ghost use Rattle.std.specs.Ordering.{nat_cmp};
ghost use Rattle.std.specs.Cmp.Lexicographic.{slice_cmp};
ghost use Rattle.plain_model.specs.Trees.{at};
ghost use Rattle.path_tree.specs.Folders.{key_of, rest_of, AreSound, Fits};
ghost use Rattle.path_tree.specs.Inside.{extent_of, member_of, row_tree, rows_of};
ghost use Rattle.path_tree.specs.PathMaps.{IsInOrder};
ghost use Rattle.path_tree.specs.Rows.{IsFound, IsPlace, IsExchange};
ghost use Rattle.path_tree.specs.Setting.{name_of};

use super::extent::{Change, Extent, extent_under};
use super::{Child, Folder, Node};
use plain_model::NoMemory;
use std::alloc::Global;
use std::cmp::Ordering;
use std::rc::Rc;

/// How many bytes the first key of a path has.
pub(super) fn key_len(path: &[u8]) -> usize
    ensures key { take result path.now ≡ key_of path.now }
    ensures rest { drop result path.now ≡ rest_of path.now }
    ensures inside { result ≤ length path.now }
{
    let mut len = 0;
    for byte in path {
        len += 1;
        if *byte == b'/' {
            return len;
        }
    }
    len
}

/// The path up to its first slash, without it.
pub(super) fn name_of(path: &[u8]) -> &[u8]
    ensures { result.now ≡ name_of path.now }
{
    let mut len = 0;
    for byte in path {
        if *byte == b'/' {
            break;
        }
        len += 1;
    }
    &path[..len]
}

/// Where the child with the key is, or else where it belongs.
pub(super) fn search(children: &[Child], key: &[u8]) -> Result<usize, usize>
    requires { IsInOrder (rows_of children.now) }
    ensures found { IfOk result (IsFound key.now children.now) }
    ensures absent { IfErr result (IsPlace key.now children.now) }
{
    children.binary_search_by(
        |child: &Child| -> Ordering
            ensures { result ≡ slice_cmp nat_cmp child.now.key.value.items key.entry.now }
        { child.key.as_slice().cmp(key) },
    )
}

/// What is under the key.
pub(super) fn find_in<'a>(children: &'a [Child], key: &[u8]) -> Option<&'a Node>
    requires { IsInOrder (rows_of children.now) }
    ensures { option_map (λ n. member_of n.now) result ≡ at (rows_of children.now) key.now }
{
    match search(children, key) {
        Ok(index) => Some(&children[index].node),
        Err(_) => None,
    }
}

/// Another owner of the node.
pub(crate) fn share_node(node: &Node) -> Result<Node, NoMemory>
    ensures { IfOk result (λ n. member_of n ≡ member_of node.now) }
{
    match node {
        Node::File(entry) => Ok(Node::File(*entry)),
        Node::Subfolder(below) => Ok(Node::Subfolder(below.clone()?)),
    }
}

/// The same children, with one more owner of what is below each.
pub(super) fn shared(alloc: Global, children: &[Child]) -> Result<Vec<Child>, NoMemory>
    ensures { IfOk result (λ v. rows_of v.items ≡ rows_of children.now) }
{
    let mut shared = Vec::with_capacity(alloc, children.len())?;
    for child in children {
        let node = share_node(&child.node)?;
        let key = child.key.clone()?;
        shared.push(Child { key, node })?;
    }
    Ok(shared)
}

/// The extent of the child's paths.
pub(super) fn child_extent(child: &Child) -> Extent
    requires { Fits child.now.key.value.items (member_of child.now.node) }
    ensures { result ≡ extent_of (row_tree child.now) }
{
    extent_under(child.key.as_slice(), &child.node)
}

/// Puts the node under the key, in the place of what was there.
pub(super) fn put_child(
    children: &mut Vec<Child>,
    alloc: Global,
    key: &[u8],
    node: Node,
) -> Result<Change, NoMemory>
    requires sound { AreSound (rows_of children.old.items) }
    requires fits { Fits key.now (member_of node) }
    ensures exchanged { IfOk result (λ change. IsExchange key.now (Some (member_of node)) change
        (rows_of children.old.items) (rows_of children.new.items)) }
    ensures unchanged { OnErr result (rows_of children.new.items ≡ rows_of children.old.items) }
{
    let come = extent_under(key, &node);
    match search(children.as_slice(), key) {
        Ok(index) => {
            let gone = child_extent(&children[index]);
            children[index].node = node;
            Ok(Change { gone, come })
        }
        Err(index) => {
            let gone = Extent {
                count: 0,
                longest: 0,
            };
            let key = Rc::new(alloc, Vec::from_slice(alloc, key)?)?;
            children.insert(index, Child { key, node })?;
            Ok(Change { gone, come })
        }
    }
}

/// Removes what is under the key.
pub(super) fn remove_child(children: &mut Vec<Child>, key: &[u8]) -> Change
    requires { AreSound (rows_of children.old.items) }
    ensures { IsExchange key.now None result (rows_of children.old.items) (rows_of children.new.items) }
{
    let none = Extent {
        count: 0,
        longest: 0,
    };
    match search(children.as_slice(), key) {
        Ok(index) => {
            let gone = child_extent(&children[index]);
            children.remove(index);
            Change { gone, come: none }
        }
        Err(_) => Change {
            gone: none,
            come: none,
        },
    }
}
