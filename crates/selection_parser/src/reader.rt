//! A reader of a selection, which takes one byte after another.
use crate::function::Function;
use crate::place::Place;
use crate::selection::{Selection, SelectionList};

/// What was read of a selection at one depth: its parts before the last `|`, and the terms between that and the
/// last `&`.
#[derive(Drop)]
pub struct Parts {
    pub unions: SelectionList,
    pub boths: SelectionList,
}

/// What is open around the next byte: a `~`; or parentheses, those of a function if there is one, with what was
/// read before them.
#[derive(Drop)]
pub enum Frame {
    Negation,
    Opened(Option<Function>, Parts),
}

/// The next byte is inside a primary, or after one with so many question marks.
#[derive(Drop)]
pub enum State {
    Inside(Place),
    After(u64, Selection),
}

/// Where the next byte is, what was read at this depth, and what is open, the innermost last: 64 at most.
#[derive(Drop)]
pub struct Reader {
    pub state: State,
    pub parts: Parts,
    pub frames: Vec<Frame>,
}

/// What a byte leads to: the reading goes on; or it ends with a selection; or the byte is refused.
#[derive(Drop)]
pub enum Next {
    Goes(Reader),
    Ends(Selection),
    Stops,
}
