//! The plain model: the values that a stream and a history are made of, and the definitions that all contracts cite.
#![tactic(auto)]

mod event;
mod fault;
mod id;
mod limit;
mod list;
mod mark;
mod object;
mod operation;
mod path;
mod person;
mod policy;
mod raw;
mod shared;
mod status;
mod steps;

pub use event::{EventList, MarkList, ParentList, PlainEvent};
pub use fault::{Fault, Halt, Which, Why};
pub use id::{AnyId, BlobId, CommitId, IdList, PassId, ResetId, TagId};
pub use limit::{
    MAX_ALIASES, MAX_COMMANDS, MAX_EVENTS, MAX_KEPT_TREES, MAX_LINE_BYTES, MAX_MACRO_DEPTH,
    MAX_MARK, MAX_NAME_BYTES, MAX_NESTING, MAX_OPERATIONS, MAX_PARENTS, MAX_PATH_BYTES, MAX_PATHS,
    MAX_PATTERN_BYTES, MAX_REPOSITORIES, MAX_REPOSITORY_NAME_BYTES, MAX_SAMPLE_COMMITS,
    MAX_SCRIPT_BYTES, MAX_SECONDS, MAX_STREAM_BYTES,
};
pub use list::{Copied, Items, NoMemory, NumberList, Text};
pub use mark::Mark;
pub use object::ObjectId;
pub use operation::{Content, Entry, EntryList, FileOp, Mode, OpList};
pub use path::{Path, PathFault};
pub use person::{Person, Signed, When};
pub use policy::{Lean, Policy, Push};
pub use raw::{Place, RawContent, RawOp};
pub use shared::Shared;
pub use status::Status;
pub use steps::Steps;
