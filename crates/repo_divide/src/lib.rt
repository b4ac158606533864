//! A history is divided where a link is cut. Read in this order: `cutting` (which link), `walk` (which commits links
//! still join to its child), `parting` (the history without the link), `naming`
//! (blobs that operations name), `halving` (both lists), `dividing`.
#![tactic(auto)]

mod cutting;
mod dividing;
mod halving;
mod naming;
mod parting;
mod walk;

pub use dividing::divide;
