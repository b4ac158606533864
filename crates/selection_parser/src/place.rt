//! Places in the text of a selection.
use crate::digits::Digits;
use crate::field::FieldSet;
use crate::item::{ItemList, Spot};
use crate::kind::KindSet;
use plain_model::Text;

/// Where in a spot the next byte is.
#[derive(Drop)]
pub enum SpotPlace {
    /// Before its first byte.
    Start,
    /// After `:`.
    AfterColon,
    /// In digits, those of a mark or of a number.
    Digits { marked: bool, digits: Digits },
    /// After `<` and this much of a name.
    InText(Text),
    /// After a whole spot.
    After(Spot),
    /// After a spot and one point.
    AfterDot(Spot),
}

/// Where in a primary the next byte is.
#[derive(Drop)]
pub enum Place {
    /// Before its first byte.
    Start,
    /// After `@` and these letters.
    InName(Text),
    /// After `=`.
    AfterEquals,
    /// In the letters of kinds.
    InKinds(KindSet),
    /// In items: those before the last comma, and the start of a range.
    InItems {
        before: ItemList,
        start: Option<Spot>,
        at: SpotPlace,
    },
    /// In a pattern, after `/`, or after `[/` where it is bracketed.
    InPattern {
        bracketed: bool,
        pattern: Text,
    },
    /// After a pattern, in the letters of fields.
    InFields {
        pattern: Text,
        fields: FieldSet,
    },
    /// After `[` and this much of a path.
    InPath(Text),
    /// After `[/`, a pattern and `/`, and after `c` where whole trees are looked at.
    AfterPathPattern {
        pattern: Text,
        whole: bool,
    },
    /// After a path and its bracket.
    AfterPath(Text),
    /// After the pattern of a path and its bracket.
    AfterBracket {
        pattern: Text,
        whole: bool,
    },
}
