//! The plan of a move of paths. Read in this order: `images` (where paths and operations go), `written` (what makes one
//! tree of another), `wholes` (the image of a whole tree, or that it has none), `collisions`, `pairs` (a tree with its
//! image), `shortcuts`, `moving` (what is in the place of an operation), `kept` (the trees with which commits begin),
//! `commits`, `lengths` (how long paths get), `by_name` (a move for which names are enough), `courses` (by names or by
//! trees), `path_moving`.
#![tactic(auto)]

mod by_name;
mod collisions;
mod commits;
mod courses;
mod images;
mod kept;
mod lengths;
mod moving;
mod pairs;
mod path_moving;
mod shortcuts;
mod wholes;
mod written;

pub use path_moving::map_paths;
