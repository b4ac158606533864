//! A folder, seen as the tree of the paths below it.
ghost use Rattle.std.specs.Prelude.{◌≡◌, []};

mod block;
mod blocks;
mod extent;
mod finding;
mod listing;
mod setting;

use extent::Extent;
use plain_model::Entry;
pub(crate) use setting::{set_shared, with_slash};
use std::alloc::Global;
use std::marker::Model;
use std::rc::Rc;

/// The children in byte order of their keys, with the extent of the tree below them.
#[derive(Drop)]
#[cycle(tree)]
pub struct Folder {
    children: Children,
    extent: Extent,
}

/// The children in blocks: the first ones, and where there are more, blocks that may have several owners.
#[derive(Drop)]
#[cycle(tree)]
pub struct Children {
    first: Vec<Child>,
    rest: Vec<Rc<Vec<Child>>>,
}

/// A file under its name, or a folder under its name with a slash after it.
#[derive(Drop)]
#[cycle(tree)]
pub struct Child {
    key: Rc<Vec<u8>>,
    node: Node,
}

/// A folder may have several owners; none of them sees what another changes.
#[derive(Drop)]
#[cycle(tree)]
pub enum Node {
    File(Entry),
    Subfolder(Rc<Folder>),
}

impl Model for Folder {
    ghost use Rattle.plain_model.specs.Trees.{Tree};
    ghost use Rattle.path_tree.specs.Folders.{total};

    ghost Value = { Tree };

    ghost use Rattle.path_tree.specs.Inside.{tree_of, IsSoundFolder};

    ghost view = { tree_of };

    ghost invariant = { IsSoundFolder };

    ghost size = { total };

    ghost use Rattle.path_tree.specs.Falls.{falls};

    ghost size_decreases = { falls };
}

impl Folder {
    /// No paths.
    pub fn new(alloc: Global) -> Folder
        ensures { result ≡ [] }
    {
        Folder {
            children: Children {
                first: Vec::new(alloc),
                rest: Vec::new(alloc),
            },
            extent: Extent {
                count: 0,
                longest: 0,
            },
        }
    }
}
