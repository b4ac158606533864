//! What is in a folder.
ghost use Rattle.std.specs.Prelude.{◌≡◌, ◌++◌, [], true, option_map};
ghost use Rattle.std.specs.Option.{unwrap_or};
ghost use Rattle.plain_model.specs.Paths.{Bytes};
ghost use Rattle.path_tree.specs.Setting.{ends_with_slash};
ghost use Rattle.plain_model.specs.Trees.{at};

use super::block::key_len;
use super::blocks::{find, folder_under};
use super::{Folder, Node};
use plain_model::Entry;
use std::rc::Rc;

impl Folder {
    /// The entry of the file at the path.
    pub fn get(&self, path: &[u8]) -> Option<Entry>
        ensures { result ≡ at self.now path.now }
    {
        let len = key_len(path);
        let (key, rest) = path.split_at(len);
        match find(&self.children, key) {
            None => None,
            Some(Node::File(entry)) => { if rest.is_empty() { Some(*entry) } else { None } }
            Some(Node::Subfolder(below)) => below.get(rest),
        }
    }

    /// The folder at the path, which ends with a slash.
    pub(crate) fn folder_at(&self, path: &[u8]) -> Option<&Rc<Folder>>
        requires { ends_with_slash path.now ≡ true }
        ensures { (r : Bytes) → at self.now (path.now ++ r)
            ≡ at (unwrap_or (option_map (λ f. f.now.value) result) []) r }
    {
        let (key, rest) = path.split_at(key_len(path));
        match folder_under(&self.children, key) {
            None => None,
            Some(below) => {
                if rest.is_empty() {
                    Some(below)
                } else {
                    below.folder_at(rest)
                }
            }
        }
    }
}
