//! The lines of a stream by their first words, and the places of an event where a line is expected.

/// What a line is by its first word. A word that has no text after it is the whole line. (git-fast-import, "Input
/// format".)
#[derive(Clone, Copy, Debug, PartialEq, Eq)]
pub enum Word {
    /// A line without bytes.
    Empty,
    Blob,
    Commit,
    Tag,
    Reset,
    Mark,
    /// `original-oid`.
    Oid,
    Author,
    Committer,
    Encoding,
    Data,
    From,
    Merge,
    Tagger,
    Alias,
    To,
    /// `M`, `D`, `C`, `R` or `deleteall`.
    Operation,
    /// `M` whose content is `inline`, so that a block of data follows.
    InlineOperation,
    /// `checkpoint`, `progress`, `option` or `feature`.
    Pass,
    /// `feature done`, which promises a last line `done`.
    FeatureDone,
    Done,
    /// A word with a meaning in git that is left out.
    LeftOut,
    Other,
}

/// Which lines of an event were read, so which are expected next.
#[derive(Clone, Copy, Debug, PartialEq, Eq)]
pub enum Expected {
    /// Between events.
    Event,
    BlobMark,
    BlobOid,
    BlobData,
    CommitMark,
    CommitOid,
    CommitAuthor,
    CommitCommitter,
    CommitEncoding,
    CommitData,
    CommitFrom,
    CommitMerge,
    CommitOperation,
    /// The data of an operation with `inline`.
    InlineData,
    TagMark,
    TagFrom,
    TagOid,
    TagTagger,
    TagData,
    ResetFrom,
    ResetEnd,
    AliasMark,
    AliasTo,
}

/// Where a stream is between two lines.
#[derive(Clone, Copy, Debug, PartialEq, Eq)]
pub struct Standing {
    pub expected: Expected,
    /// A line `done` was promised, and hasn't come.
    pub wants_done: bool,
}

/// What a line does where it comes.
#[derive(Clone, Copy, Debug, PartialEq, Eq)]
pub enum Follow {
    /// It goes on in the event, where this is expected next.
    Goes(Expected),
    /// Another line is expected.
    Missing,
    /// The event is over, or there was none: the line is between events.
    Finished,
}
