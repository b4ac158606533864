//! Selections.
use crate::field::FieldSet;
use crate::function::Function;
use crate::item::ItemList;
use crate::kind::KindSet;
use plain_model::Text;

/// A selection as it was read: nothing was looked up yet. (reposurgeon manual, "Selection syntax")
#[derive(Drop)]
pub enum Selection {
    /// `a|b`, two or more.
    Union(SelectionList),
    /// `a&b`, two or more.
    Both(SelectionList),
    /// `~a`.
    Not(Box<Selection>),
    /// `a?`, so many times over, at least once.
    Near {
        times: u64,
        of: Box<Selection>,
    },
    /// `@min(a)`.
    Call {
        function: Function,
        of: Box<Selection>,
    },
    /// `=BC`.
    Kinds(KindSet),
    /// `/p/ac`.
    Search {
        pattern: Text,
        fields: FieldSet,
    },
    /// `[path]`.
    AtPath(Text),
    /// `[/p/]`, or `[/p/c]`, by which whole trees are looked at.
    AtPattern {
        pattern: Text,
        whole: bool,
    },
    /// `1,:2..$,<name>`.
    Items(ItemList),
}

/// Selections, in the written order.
pub type SelectionList = Vec<Selection>;
