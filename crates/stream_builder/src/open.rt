//! The event that is being read.
use plain_model::{CommitId, Mark, OpList, ParentList, Shared, Signed, Text};

/// A commit, as far as its lines were read.
#[derive(Drop)]
pub struct OpenCommit {
    pub branch: Shared<Text>,
    pub mark: Option<Mark>,
    pub author: Option<Signed>,
    pub committer: Option<Signed>,
    pub encoding: Option<Shared<Text>>,
    pub comment: Text,
    pub parents: ParentList,
    pub ops: OpList,
}

/// The event that is being read, if there is one. A tag's target is no commit before its line was read.
#[derive(Drop)]
pub enum Open {
    Nothing,
    Blob {
        mark: Option<Mark>,
    },
    Commit(OpenCommit),
    Tag {
        name: Text,
        target: CommitId,
        tagger: Option<Signed>,
        mark: Option<Mark>,
    },
    Reset {
        branch: Shared<Text>,
        target: Option<CommitId>,
    },
    Alias {
        mark: Option<Mark>,
    },
}
