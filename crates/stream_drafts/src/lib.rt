//! The events of a stream so far, while some of their blobs and commits have no mark yet.
#![tactic(auto)]

mod aliases;
mod draft;
mod drafts;
mod finish;
mod grouping;
mod index;
mod marked_ids;
mod whole;

pub use aliases::Aliases;
pub use draft::{CommitFields, Links};
pub use drafts::Drafts;
pub use finish::FinishFault;
