//! What plans of several commands share: which events a command is for, what commits have, and the steps by which a plan
//! changes. Read in this order: `selected`, `commits`, `flagged` (a history and some of its events), `near`, `selection` (the same of any list), `ways` and
//! `targets` (where tags and resets go), `leaving` (which events go), `operations`, `changing`, `sweeping` (blobs),
//! `limits`, `ordering`.
#![tactic(auto)]

mod changing;
mod commits;
mod flagged;
mod leaving;
mod limits;
mod near;
mod operations;
mod ordering;
mod selected;
mod selection;
mod sweeping;
mod targets;
mod ways;

pub use changing::{give_ops, give_parents};
pub use commits::{ops_of, parents_of};
pub use flagged::{Flagged, listed};
pub use leaving::leaving_ids;
pub use limits::{Many, has_many, has_many_events, has_many_parents, limit_passed};
pub use operations::{anew, push_ops};
pub use ordering::{are_near_settled, put_in_order, put_near_in_order};
pub use selected::{chosen, event_number, kind_fault, the_commit};
pub use selection::Selected;
pub use sweeping::{flag_blob, flag_blobs, named_after, sweep, sweep_removed, sweep_touched};
pub use targets::{Targets, lost_at, moved_targets, target_at, target_of, targets_of};
pub use ways::{removed_ways_back, stand_in, way_at, ways_back};
