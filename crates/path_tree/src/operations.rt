//! The operations on a tree of folders. What can be refused is refused before the tree changes.
ghost use Rattle.std.specs.Prelude.{◌≡◌, [], ◌<◌, None, false, not, Ok, IfOk};
ghost use Rattle.std.specs.Prelude.{IfErr, OnOk, nat_lt, length, is_some, option_map, if◌then◌else◌};
ghost use Rattle.plain_model.specs.declared.limit.TheConstants.{MAX_PATH_BYTES, MAX_PATHS};
ghost use Rattle.plain_model.specs.Trees.{IsTree, apply, at, change, cleared_for};
ghost use Rattle.plain_model.specs.Trees.{put_all, subtree, within_paths, without};
ghost use Rattle.plain_model.specs.Trees.Change.{Put};
ghost use Rattle.path_tree.specs.Answers.{IsAnswer, TellsOf, moves};
ghost use Rattle.path_tree.specs.Folders.{longest, prefixed};
ghost use Rattle.path_tree.specs.Inside.{bounded, member_of};
ghost use Rattle.path_tree.specs.PathMaps.{IsInOrder};
ghost use Rattle.path_tree.specs.Setting.{ends_with_slash, suffixes, Finds, FitsNode};
ghost use Rattle.history_laws.specs.SoundTrees.{AllPaths};

use crate::fault::ApplyFault;
use crate::folder::{Folder, Node, set_shared, with_slash};
use plain_model::{
    Copied, Entry, EntryList, FileOp, Items, MAX_PATH_BYTES, MAX_PATHS, NoMemory, Path, Which,
};
use std::alloc::Global;
use std::rc::Rc;

/// Another owner of the tree.
fn shared(root: &Rc<Folder>) -> Result<Rc<Folder>, NoMemory>
    ensures { IfOk result (λ r. r.value ≡ root.now.value) }
{
    let root = root.clone()?;
    Ok(root)
}

fn empty(alloc: Global) -> Result<Rc<Folder>, NoMemory>
    ensures { IfOk result (λ r. r.value ≡ []) }
{
    let root = Rc::new(alloc, Folder::new(alloc))?;
    Ok(root)
}

/// The folder at the path where there is no file, if there is one.
fn folder_node(alloc: Global, root: &Folder, path: &[u8]) -> Result<Option<Node>, NoMemory>
    requires { at root.now path.now ≡ None }
    ensures found { IfOk result (λ n. Finds path.now (option_map member_of n) root.now) }
    ensures fits { IfOk result (λ n. FitsNode (option_map member_of n)) }
{
    let long = with_slash(alloc, path)?;
    match root.folder_at(long.as_slice()) {
        None => Ok(None),
        Some(folder) => {
            if folder.count() == 0 {
                return Ok(None);
            }
            let folder = shared(folder)?;
            Ok(Some(Node::Subfolder(folder)))
        }
    }
}

/// The file or the folder at the path, if there is one: the folder has one more owner then.
fn node_at(alloc: Global, root: &Folder, path: &[u8]) -> Result<Option<Node>, NoMemory>
    requires { IsTree root.now }
    ensures found { IfOk result (λ n. Finds path.now (option_map member_of n) root.now) }
    ensures fits { IfOk result (λ n. FitsNode (option_map member_of n)) }
{
    match root.get(path) {
        Some(entry) => Ok(Some(Node::File(entry))),
        None => folder_node(alloc, root, path),
    }
}

/// Whether there is nothing.
fn is_missing(node: &Option<Node>) -> bool
    ensures { result ≡ not (is_some (option_map member_of node.now)) }
{
    node.is_none()
}

/// Whether a path would be too long where the node is put at the target.
fn is_long(target: &[u8], node: &Option<Node>) -> bool
    requires { FitsNode (option_map member_of node.now) }
    ensures { result ≡
        nat_lt MAX_PATH_BYTES (longest (prefixed target.now (suffixes (option_map member_of node.now)))) }
{
    let len = target.len() as u64;
    match node {
        None => false,
        Some(Node::File(_)) => len > MAX_PATH_BYTES,
        Some(Node::Subfolder(folder)) => {
            len.saturating_add(folder.longest().saturating_add(1)) > MAX_PATH_BYTES
        }
    }
}

/// Takes the tree in the place of the other, if it has no more paths than are allowed.
fn take_within(root: &mut Rc<Folder>, made: Rc<Folder>) -> Result<(), ApplyFault>
    ensures { IsAnswer (within_paths made.value) root.old.value result root.new.value }
{
    if made.count() > MAX_PATHS {
        return Err(ApplyFault::Limit {
            which: Which::Paths,
            number: MAX_PATHS,
        });
    }
    *root = made;
    Ok(())
}

/// The tree from which what is put at the target will have come; the source stays if that is asked.
fn base(alloc: Global, root: &Rc<Folder>, source: &[u8], keep: bool) -> Result<Rc<Folder>, NoMemory>
    requires is_file { ends_with_slash source.now ≡ false }
    requires order { IsInOrder root.now.value }
    ensures { IfOk result (λ r. r.value ≡ (if keep then root.now.value else without source.now root.now.value)) }
{
    let mut made = shared(root)?;
    if keep {
        return Ok(made);
    }
    set_shared(&mut made, alloc, source, &None, false)?;
    Ok(made)
}

/// The tree with the node at the path, in the place of what it conflicts with.
fn placed(
    alloc: Global,
    root: Rc<Folder>,
    path: &[u8],
    node: &Option<Node>,
) -> Result<Rc<Folder>, NoMemory>
    requires is_file { ends_with_slash path.now ≡ false }
    requires fits { FitsNode (option_map member_of node.now) }
    requires order { IsInOrder root.value }
    ensures { IfOk result (λ r. r.value ≡
        put_all (prefixed path.now (suffixes (option_map member_of node.now))) (cleared_for path.now root.value)) }
{
    let mut made = root;
    set_shared(&mut made, alloc, path, node, true)?;
    Ok(made)
}

/// Puts what is at the source at the target; the source stays if that is asked.
fn move_to(
    alloc: Global,
    root: &mut Rc<Folder>,
    source: &[u8],
    target: &[u8],
    keep: bool,
) -> Result<(), ApplyFault>
    requires source_is_file { ends_with_slash source.now ≡ false }
    requires is_file { ends_with_slash target.now ≡ false }
    requires form { IsTree root.old.value }
    ensures { IsAnswer (change (moves keep source.now target.now) root.old.value) root.old.value result root.new.value }
{
    let node = node_at(alloc, root, source)?;
    if is_missing(&node) {
        return Err(ApplyFault::MissingSource);
    }
    if is_long(target, &node) {
        return Err(ApplyFault::Limit {
            which: Which::PathBytes,
            number: MAX_PATH_BYTES,
        });
    }
    let base = base(alloc, root, source, keep)?;
    let made = placed(alloc, base, target, &node)?;
    take_within(root, made)
}

/// Puts a file into a tree that has room for one more path.
fn put(alloc: Global, root: &mut Rc<Folder>, path: &[u8], entry: Entry) -> Result<(), ApplyFault>
    requires is_file { ends_with_slash path.now ≡ false }
    requires form { IsTree root.old.value }
    requires room { length root.old.value < MAX_PATHS }
    ensures { IsAnswer (change (Put entry path.now) root.old.value) root.old.value result root.new.value }
{
    set_shared(root, alloc, path, &Some(Node::File(entry)), true)?;
    Ok(())
}

/// Puts a file into a copy of a full tree, in which another file may go for it.
fn put_full(
    alloc: Global,
    root: &mut Rc<Folder>,
    path: &[u8],
    entry: Entry,
) -> Result<(), ApplyFault>
    requires is_file { ends_with_slash path.now ≡ false }
    requires form { IsTree root.old.value }
    ensures { IsAnswer (change (Put entry path.now) root.old.value) root.old.value result root.new.value }
{
    let base = shared(root)?;
    let made = placed(alloc, base, path, &Some(Node::File(entry)))?;
    take_within(root, made)
}

fn modify(alloc: Global, root: &mut Rc<Folder>, path: &[u8], entry: Entry) -> Result<(), ApplyFault>
    requires is_file { ends_with_slash path.now ≡ false }
    requires form { IsTree root.old.value }
    ensures { IsAnswer (change (Put entry path.now) root.old.value) root.old.value result root.new.value }
{
    if root.count() < MAX_PATHS {
        put(alloc, root, path, entry)
    } else {
        put_full(alloc, root, path, entry)
    }
}

fn delete(alloc: Global, root: &mut Rc<Folder>, path: &[u8]) -> Result<(), ApplyFault>
    requires is_file { ends_with_slash path.now ≡ false }
    requires form { IsTree root.old.value }
    ensures { IsAnswer (Ok (without path.now root.old.value)) root.old.value result root.new.value }
{
    set_shared(root, alloc, path, &None, false)?;
    Ok(())
}

fn clear(alloc: Global, root: &mut Rc<Folder>) -> Result<(), ApplyFault>
    ensures { IsAnswer (Ok []) root.old.value result root.new.value }
{
    *root = empty(alloc)?;
    Ok(())
}

/// Applies the operation, or leaves the tree as it was.
pub(crate) fn applied(alloc: Global, root: &mut Rc<Folder>, op: &FileOp) -> Result<(), ApplyFault>
    requires form { IsTree root.old.value }
    ensures answer { IsAnswer (apply op.now root.old.value) root.old.value result root.new.value }
    ensures paths { OnOk result (AllPaths root.old.value → AllPaths root.new.value) }
{
    match op {
        FileOp::Modify {
            mode,
            content,
            path,
        } => {
            let entry = Entry {
                mode: *mode,
                content: *content,
            };
            modify(alloc, root, path.as_bytes(), entry)
        }
        FileOp::Delete { path } => delete(alloc, root, path.as_bytes()),
        FileOp::Copy { source, target } => {
            move_to(alloc, root, source.as_bytes(), target.as_bytes(), true)
        }
        FileOp::Rename { source, target } => {
            move_to(alloc, root, source.as_bytes(), target.as_bytes(), false)
        }
        FileOp::DeleteAll => clear(alloc, root),
    }
}

/// The list with the paths at or below the path that the node is.
fn node_list(alloc: Global, path: &Path, node: &Option<Node>) -> Result<EntryList, NoMemory>
    requires { AllPaths (prefixed path.now (suffixes (option_map member_of node.now))) }
    ensures { IfOk result (λ list. list ≡ prefixed path.now (suffixes (option_map member_of node.now))) }
{
    let mut list = Items::empty(alloc);
    match node {
        None => Ok(list),
        Some(Node::File(entry)) => {
            list.push((path.copied(alloc)?, *entry))?;
            Ok(list)
        }
        Some(Node::Subfolder(folder)) => {
            let long = with_slash(alloc, path.as_bytes())?;
            folder.list(alloc, long.as_slice(), &mut list)?;
            Ok(list)
        }
    }
}

/// The path and those below it, with what is there.
pub(crate) fn listed_below(alloc: Global, root: &Folder, path: &Path) -> Result<EntryList, NoMemory>
    requires form { IsTree root.now }
    requires paths { AllPaths root.now }
    ensures { IfOk result (λ list. list ≡ subtree path.now root.now) }
{
    let node = node_at(alloc, root, path.as_bytes())?;
    node_list(alloc, path, &node)
}

/// How many paths are at or below the path that the node is.
fn node_count(node: &Option<Node>) -> u64
    requires { FitsNode (option_map member_of node.now) }
    ensures { result ≡ bounded (length (suffixes (option_map member_of node.now))) }
{
    match node {
        None => 0,
        Some(Node::File(_)) => 1,
        Some(Node::Subfolder(folder)) => folder.count(),
    }
}

/// How many paths are at or below the path.
pub(crate) fn counted_below(alloc: Global, root: &Folder, path: &Path) -> Result<u64, NoMemory>
    requires { IsTree root.now }
    ensures { IfOk result (λ count. count ≡ bounded (length (subtree path.now root.now))) }
{
    let node = node_at(alloc, root, path.as_bytes())?;
    Ok(node_count(&node))
}
