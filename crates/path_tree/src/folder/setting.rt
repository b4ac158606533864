//! What is at a path of a folder, and below it, becomes another file or folder, or nothing. A folder on the
//! way that has one owner is changed in place; one that has more is copied once, and its blocks are shared.
ghost use Rattle.std.specs.Prelude.{◌≡◌, ◌++◌, ◌∷◌, [], Bool, true, false, IfOk};
ghost use Rattle.std.specs.Prelude.{OnOk, OnErr, IsFalse, IsTrue, bytes_eq, Some, None, option_map, is_some};
ghost use Rattle.plain_model.specs.Trees.{at};
ghost use Rattle.path_tree.specs.Folders.{filled, is_file_key, is_folder_key, Fits, AreSound};
ghost use Rattle.path_tree.specs.Folders.Member.{folder};
ghost use Rattle.path_tree.specs.Inside.{all_rows, blocks_of, member_of, rows_of, AreFilled};
ghost use Rattle.path_tree.specs.PathMaps.{IsInOrder};
ghost use Rattle.path_tree.specs.Rows.{is_folder, IsSetNode, IsSetUnder};
ghost use Rattle.path_tree.specs.Setting.{ends_with_slash, name_of, FitsIf, FitsNode, HasNone};
ghost use Rattle.path_tree.specs.Setting.{Places, PlacesBelow, PutsOver, PutsUnder};

use super::block::{child_extent, key_len, name_of, search, share_node, shared};
use super::blocks::{copied, drop_empty, find, place, put, remove};
use super::extent::{Change, Extent, recounted};
use super::{Child, Children, Folder, Node};
use plain_model::NoMemory;
use std::alloc::Global;
use std::rc::Rc;

/// The path with a slash after it.
pub(crate) fn with_slash(alloc: Global, path: &[u8]) -> Result<Vec<u8>, NoMemory>
    ensures { IfOk result (λ v. v.items ≡ path.now ++ 47 ∷ []) }
{
    let mut bytes = Vec::from_slice(alloc, path)?;
    bytes.push(b'/')?;
    Ok(bytes)
}

/// Sets what is at a path of the folder, and below it: in place where this is the folder's one owner, and
/// else in a copy, which this owns then.
#[cycle(setting)]
pub(crate) fn set_shared(
    folder: &mut Rc<Folder>,
    alloc: Global,
    path: &[u8],
    node: &Option<Node>,
    clear: bool,
) -> Result<(), NoMemory>
    requires is_file { ends_with_slash path.now ≡ false }
    requires fits { FitsNode (option_map member_of node.now) }
    ensures places { OnOk result
        (Places path.now (option_map member_of node.now) clear folder.old.value folder.new.value) }
    ensures order { OnOk result (IsInOrder folder.new.value) }
    ensures unchanged { OnErr result (folder.new.value ≡ folder.old.value) }
{
    match Rc::get_mut(folder) {
        Some(own) => own.set(alloc, path, node, clear),
        None => {
            let mut copy = folder.copied(alloc)?;
            copy.set(alloc, path, node, clear)?;
            *folder = Rc::new(alloc, copy)?;
            Ok(())
        }
    }
}

/// Sets a path of the folder that the node is; whether the folder has paths then.
#[cycle(setting)]
fn set_node(
    folder: &mut Node,
    alloc: Global,
    path: &[u8],
    node: &Option<Node>,
    clear: bool,
) -> Result<bool, NoMemory>
    requires is_file { ends_with_slash path.now ≡ false }
    requires fits { FitsNode (option_map member_of node.now) }
    requires is_folder { is_folder (member_of folder.old) ≡ true }
    ensures set { IfOk result (λ some. IsSetNode path.now (option_map member_of node.now) clear
        (member_of folder.old) (member_of folder.new) some) }
    ensures unchanged { OnErr result (member_of folder.new ≡ member_of folder.old) }
{
    match folder {
        Node::File(_) => Ok(true),
        Node::Subfolder(below) => {
            set_shared(below, alloc, path, node, clear)?;
            Ok(below.count() != 0)
        }
    }
}

/// Sets a path of the folder under the key, if there is one. The folder goes where nothing is left in it.
#[cycle(setting)]
fn set_child(
    children: &mut Vec<Child>,
    alloc: Global,
    key: &[u8],
    path: &[u8],
    node: &Option<Node>,
    clear: bool,
) -> Result<Option<Change>, NoMemory>
    requires sound { AreSound (rows_of children.old.items) }
    requires is_key { is_folder_key key.now ≡ true }
    requires is_file { ends_with_slash path.now ≡ false }
    requires fits { FitsNode (option_map member_of node.now) }
    ensures set { IfOk result (λ change. IsSetUnder key.now path.now (option_map member_of node.now) clear change
        (rows_of children.old.items) (rows_of children.new.items)) }
    ensures unchanged { OnErr result (rows_of children.new.items ≡ rows_of children.old.items) }
{
    match search(children.as_slice(), key) {
        Err(_) => Ok(None),
        Ok(index) => {
            let gone = child_extent(&children[index]);
            if set_node(&mut children[index].node, alloc, path, node, clear)? {
                let come = child_extent(&children[index]);
                Ok(Some(Change { gone, come }))
            } else {
                children.remove(index);
                let come = Extent {
                    count: 0,
                    longest: 0,
                };
                Ok(Some(Change { gone, come }))
            }
        }
    }
}

/// Sets a path of the folder under the key, if there is one: in place where this is the block's one owner,
/// and else in a copy.
#[cycle(setting)]
fn set_in(
    block: &mut Rc<Vec<Child>>,
    alloc: Global,
    key: &[u8],
    path: &[u8],
    node: &Option<Node>,
    clear: bool,
) -> Result<Option<Change>, NoMemory>
    requires sound { AreSound (rows_of block.old.value.items) }
    requires is_key { is_folder_key key.now ≡ true }
    requires is_file { ends_with_slash path.now ≡ false }
    requires fits { FitsNode (option_map member_of node.now) }
    ensures set { IfOk result (λ change. IsSetUnder key.now path.now (option_map member_of node.now) clear change
        (rows_of block.old.value.items) (rows_of block.new.value.items)) }
    ensures unchanged { OnErr result (rows_of block.new.value.items ≡ rows_of block.old.value.items) }
{
    match Rc::get_mut(block) {
        Some(own) => set_child(own, alloc, key, path, node, clear),
        None => {
            let mut copy = shared(alloc, block.as_slice())?;
            let change = set_child(&mut copy, alloc, key, path, node, clear)?;
            *block = Rc::new(alloc, copy)?;
            Ok(change)
        }
    }
}

/// Sets a path of the folder under the key, if there is one.
#[cycle(setting)]
fn set_under(
    children: &mut Children,
    alloc: Global,
    key: &[u8],
    path: &[u8],
    node: &Option<Node>,
    clear: bool,
) -> Result<Option<Change>, NoMemory>
    requires sound { AreSound (all_rows children.old) }
    requires filled { AreFilled (blocks_of children.old.rest.items) }
    requires is_key { is_folder_key key.now ≡ true }
    requires is_file { ends_with_slash path.now ≡ false }
    requires fits { FitsNode (option_map member_of node.now) }
    ensures set { IfOk result (λ change. IsSetUnder key.now path.now (option_map member_of node.now) clear change
        (all_rows children.old) (all_rows children.new)) }
    ensures filled { AreFilled (blocks_of children.new.rest.items) }
    ensures unchanged { OnErr result (all_rows children.new ≡ all_rows children.old) }
{
    match place(children, key) {
        None => set_child(&mut children.first, alloc, key, path, node, clear),
        Some(index) => {
            let change = set_in(&mut children.rest[index], alloc, key, path, node, clear)?;
            drop_empty(&mut children.rest, index);
            Ok(change)
        }
    }
}

impl Folder {
    /// An equal folder of its own; what is below is shared.
    fn copied(&self, alloc: Global) -> Result<Folder, NoMemory>
        ensures { IfOk result (λ f. f ≡ self.now) }
    {
        let children = copied(alloc, &self.children)?;
        Ok(Folder {
            children,
            extent: self.extent,
        })
    }

    /// Puts the node under the key, in the place of what was there.
    fn put(&mut self, alloc: Global, key: &[u8], node: Node) -> Result<(), NoMemory>
        requires { Fits key.now (member_of node) }
        ensures done { OnOk result (PutsUnder key.now (Some (member_of node)) self.old self.new) }
        ensures order { OnOk result (IsInOrder self.new) }
        ensures unchanged { OnErr result (self.new ≡ self.old) }
    {
        let change = put(&mut self.children, alloc, key, node)?;
        self.extent = recounted(self.extent, change, &self.children);
        Ok(())
    }

    /// Removes what is under the key.
    fn remove(&mut self, alloc: Global, key: &[u8]) -> Result<(), NoMemory>
        ensures removed { OnOk result (PutsUnder key.now None self.old self.new) }
        ensures order { OnOk result (IsInOrder self.new) }
        ensures unchanged { OnErr result (self.new ≡ self.old) }
    {
        let change = remove(&mut self.children, alloc, key)?;
        self.extent = recounted(self.extent, change, &self.children);
        Ok(())
    }

    /// Whether something is under the key.
    fn has(&self, key: &[u8]) -> bool
        ensures none { IsFalse result → HasNone key.now self.now }
    {
        find(&self.children, key).is_some()
    }

    /// Whether a file is in the place of a folder on the way, and goes if that is asked.
    fn is_blocked(&self, path: &[u8], clear: bool) -> bool
        ensures cleared { IsTrue result → clear ≡ true }
        ensures free { IsFalse result → clear ≡ true → HasNone (name_of path.now) self.now }
    {
        clear && self.has(name_of(path))
    }

    /// Sets what is under the key.
    fn set_key(&mut self, alloc: Global, key: &[u8], node: &Option<Node>) -> Result<(), NoMemory>
        requires { FitsIf key.now (option_map member_of node.now) }
        ensures done { OnOk result (PutsUnder key.now (option_map member_of node.now) self.old self.new) }
        ensures order { OnOk result (IsInOrder self.new) }
        ensures unchanged { OnErr result (self.new ≡ self.old) }
    {
        match node {
            None => self.remove(alloc, key),
            Some(node) => {
                let node = share_node(node)?;
                self.put(alloc, key, node)
            }
        }
    }

    /// Sets what is under the key, and leaves nothing under the other.
    fn set_keys(
        &mut self,
        alloc: Global,
        key: &[u8],
        other: &[u8],
        node: &Option<Node>,
    ) -> Result<(), NoMemory>
        requires apart { bytes_eq key.now other.now ≡ false }
        requires fits { FitsIf key.now (option_map member_of node.now) }
        ensures done { OnOk result (PutsOver key.now other.now (option_map member_of node.now) self.old self.new) }
        ensures order { OnOk result (IsInOrder self.new) }
        ensures unchanged { OnErr result (self.new ≡ self.old) }
    {
        if self.has(other) {
            // Memory may run out between two changes, so that a copy takes both; this is rare.
            let mut copy = self.copied(alloc)?;
            copy.set_key(alloc, key, node)?;
            copy.remove(alloc, other)?;
            *self = copy;
            return Ok(());
        }
        self.set_key(alloc, key, node)
    }

    /// Sets what is at the name and below it.
    fn set_here(&mut self, alloc: Global, name: &[u8], node: &Option<Node>) -> Result<(), NoMemory>
        requires is_name { is_file_key name.now ≡ true }
        requires fits { FitsNode (option_map member_of node.now) }
        ensures places { OnOk result
            ((clear : Bool) → Places name.now (option_map member_of node.now) clear self.old self.new) }
        ensures order { OnOk result (IsInOrder self.new) }
        ensures unchanged { OnErr result (self.new ≡ self.old) }
    {
        let long = with_slash(alloc, name)?;
        match node {
            None => self.set_keys(alloc, name, long.as_slice(), node),
            Some(Node::File(_)) => self.set_keys(alloc, name, long.as_slice(), node),
            Some(Node::Subfolder(_)) => self.set_keys(alloc, long.as_slice(), name, node),
        }
    }

    /// Puts a new folder under the key, with the node at the path, if there is a node.
    #[cycle(setting)]
    fn put_new(
        &mut self,
        alloc: Global,
        key: &[u8],
        path: &[u8],
        node: &Option<Node>,
        clear: bool,
    ) -> Result<(), NoMemory>
        requires none { HasNone key.now self.old }
        requires order { IsInOrder self.old }
        requires is_key { is_folder_key key.now ≡ true }
        requires is_file { ends_with_slash path.now ≡ false }
        requires fits { FitsNode (option_map member_of node.now) }
        ensures places { OnOk result
            (PlacesBelow key.now path.now (option_map member_of node.now) clear self.old self.new) }
        ensures order { OnOk result (IsInOrder self.new) }
        ensures unchanged { OnErr result (self.new ≡ self.old) }
    {
        let mut below = Folder::new(alloc);
        below.set(alloc, path, node, clear)?;
        if below.count() == 0 {
            return Ok(());
        }
        let below = Rc::new(alloc, below)?;
        self.put(alloc, key, Node::Subfolder(below))
    }

    /// Sets a path of the folder under the key, whether there is one or not.
    #[cycle(setting)]
    fn set_below(
        &mut self,
        alloc: Global,
        key: &[u8],
        path: &[u8],
        node: &Option<Node>,
        clear: bool,
    ) -> Result<(), NoMemory>
        requires is_key { is_folder_key key.now ≡ true }
        requires is_file { ends_with_slash path.now ≡ false }
        requires fits { FitsNode (option_map member_of node.now) }
        ensures places { OnOk result
            (PlacesBelow key.now path.now (option_map member_of node.now) clear self.old self.new) }
        ensures order { OnOk result (IsInOrder self.new) }
        ensures unchanged { OnErr result (self.new ≡ self.old) }
    {
        match set_under(&mut self.children, alloc, key, path, node, clear)? {
            None => self.put_new(alloc, key, path, node, clear),
            Some(change) => {
                self.extent = recounted(self.extent, change, &self.children);
                Ok(())
            }
        }
    }

    /// Puts the node at the path in the place of all that is there or below, or leaves nothing there. A
    /// file in the place of a folder on the way goes if that is asked.
    #[cycle(setting)]
    fn set(
        &mut self,
        alloc: Global,
        path: &[u8],
        node: &Option<Node>,
        clear: bool,
    ) -> Result<(), NoMemory>
        requires is_file { ends_with_slash path.now ≡ false }
        requires fits { FitsNode (option_map member_of node.now) }
        ensures places { OnOk result (Places path.now (option_map member_of node.now) clear self.old self.new) }
        ensures order { OnOk result (IsInOrder self.new) }
        ensures unchanged { OnErr result (self.new ≡ self.old) }
    {
        let (key, rest) = path.split_at(key_len(path));
        if rest.is_empty() {
            return self.set_here(alloc, path, node);
        }
        if self.is_blocked(path, clear) {
            // Two changes again.
            let mut copy = self.copied(alloc)?;
            copy.set_below(alloc, key, rest, node, clear)?;
            copy.remove(alloc, name_of(path))?;
            *self = copy;
            return Ok(());
        }
        self.set_below(alloc, key, rest, node, clear)
    }
}
