//! A history's comments are given as one text, a box of messages, and land from such a text on the history again. Read in
//! this order: `landing` (a message with its event), `judging` (all messages of a box), `giving` (what one message changes),
//! `carrying` (the plan).
#![tactic(auto)]

mod carrying;
mod giving;
mod judging;
mod landing;

pub use carrying::msgin;
pub use mailbox_writer::msgout;
