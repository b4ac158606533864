//! The limits of the profile. (own)

/// Bytes of a stream or a mailbox file.
pub const MAX_STREAM_BYTES: u64 = 268_435_456;

/// Bytes of a script.
pub const MAX_SCRIPT_BYTES: u64 = 1_048_576;

/// Bytes of one script line after its macro was put in.
pub const MAX_LINE_BYTES: u64 = 65_536;

/// Commands of a run.
pub const MAX_COMMANDS: u64 = 1_000_000;

/// Macros inside macros.
pub const MAX_MACRO_DEPTH: u64 = 16;

/// Repositories that are loaded at a time.
pub const MAX_REPOSITORIES: u64 = 8;

/// Bytes of a repository's name.
pub const MAX_REPOSITORY_NAME_BYTES: u64 = 255;

/// Events of a history.
pub const MAX_EVENTS: u64 = 2_000_000;

/// Operations of a history.
pub const MAX_OPERATIONS: u64 = 4_000_000;

/// Parents of a commit.
pub const MAX_PARENTS: u64 = 64;

/// Aliases of a history: the further marks of all its commits.
pub const MAX_ALIASES: u64 = 2_000_000;

/// Paths in one tree.
pub const MAX_PATHS: u64 = 4_000_000;

/// Bytes of a path.
pub const MAX_PATH_BYTES: u64 = 4_096;

/// Bytes of a branch's or a tag's name.
pub const MAX_NAME_BYTES: u64 = 1_024;

/// The greatest mark; the least is 1.
pub const MAX_MARK: u64 = 4_294_967_295;

/// The greatest date, in seconds since 1970; the least is 0.
pub const MAX_SECONDS: u64 = 250_000_000_000;

/// Bytes of a pattern.
pub const MAX_PATTERN_BYTES: u64 = 256;

/// Parentheses, functions and `~` inside one another in a selection.
pub const MAX_NESTING: u64 = 64;

/// Trees that are kept for a repository. A reader has a bound of its own.
pub const MAX_KEPT_TREES: u64 = 64;

/// Commits of a sample.
pub const MAX_SAMPLE_COMMITS: u64 = 200_000;
