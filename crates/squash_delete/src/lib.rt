//! The plan of a squash: commits are removed, and those that stay take over what they had, or don't. Read in this order:
//! `parents`, `chains` and `hangings` (what is taken over, forward and back), `taking`, `moving`, `counting` (limits),
//! `settling` (order), `backing`, `squashing`; then, for a push forward in a plan, `standing`, `fates`, `giving`, `judging`,
//! `forwarding`. What is near the set, where tags and resets go, which events go and which blobs is in `plan_steps`.
#![tactic(auto)]

mod backing;
mod chains;
mod counting;
mod fates;
mod forwarding;
mod giving;
mod hangings;
mod judging;
mod moving;
mod parents;
mod settling;
mod squashing;
mod standing;
mod taking;

pub use forwarding::push_forward;
pub use squashing::squash;
