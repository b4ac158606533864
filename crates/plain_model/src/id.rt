//! Ids of events: each is a number that is never used twice in a history, and never shown.
ghost use Rattle.std.specs.Prelude.{◌≡◌, IfOk};

use crate::list::{Copied, Items, NoMemory};
use std::alloc::Global;
use std::marker::Model;

/// The id of a blob.
#[derive(Clone, Copy, Debug, PartialEq, Eq, Hash)]
pub struct BlobId {
    number: u64,
}

impl Model for BlobId {
    ghost use Rattle.std.specs.Prelude.{ℕ};

    ghost Value = { ℕ };

    ghost view = { λ id. id.number };

    ghost inverse = { λ n. record { number = n } };
}

impl BlobId {
    pub fn new(number: u64) -> BlobId
        ensures { result ≡ number }
    {
        BlobId { number }
    }

    pub fn number(&self) -> u64
        ensures { result ≡ self.now }
    {
        self.number
    }
}

impl Copied for BlobId {
    fn copied(&self, _alloc: Global) -> Result<BlobId, NoMemory> {
        Ok(*self)
    }
}

/// The id of a commit.
#[derive(Clone, Copy, Debug, PartialEq, Eq, Hash)]
pub struct CommitId {
    number: u64,
}

impl Model for CommitId {
    ghost use Rattle.std.specs.Prelude.{ℕ};

    ghost Value = { ℕ };

    ghost view = { λ id. id.number };

    ghost inverse = { λ n. record { number = n } };
}

impl CommitId {
    pub fn new(number: u64) -> CommitId
        ensures { result ≡ number }
    {
        CommitId { number }
    }

    pub fn number(&self) -> u64
        ensures { result ≡ self.now }
    {
        self.number
    }
}

impl Copied for CommitId {
    fn copied(&self, _alloc: Global) -> Result<CommitId, NoMemory> {
        Ok(*self)
    }
}

/// The id of a tag.
#[derive(Clone, Copy, Debug, PartialEq, Eq, Hash)]
pub struct TagId {
    number: u64,
}

impl Model for TagId {
    ghost use Rattle.std.specs.Prelude.{ℕ};

    ghost Value = { ℕ };

    ghost view = { λ id. id.number };

    ghost inverse = { λ n. record { number = n } };
}

impl TagId {
    pub fn new(number: u64) -> TagId
        ensures { result ≡ number }
    {
        TagId { number }
    }

    pub fn number(&self) -> u64
        ensures { result ≡ self.now }
    {
        self.number
    }
}

impl Copied for TagId {
    fn copied(&self, _alloc: Global) -> Result<TagId, NoMemory> {
        Ok(*self)
    }
}

/// The id of a reset.
#[derive(Clone, Copy, Debug, PartialEq, Eq, Hash)]
pub struct ResetId {
    number: u64,
}

impl Model for ResetId {
    ghost use Rattle.std.specs.Prelude.{ℕ};

    ghost Value = { ℕ };

    ghost view = { λ id. id.number };

    ghost inverse = { λ n. record { number = n } };
}

impl ResetId {
    pub fn new(number: u64) -> ResetId
        ensures { result ≡ number }
    {
        ResetId { number }
    }

    pub fn number(&self) -> u64
        ensures { result ≡ self.now }
    {
        self.number
    }
}

impl Copied for ResetId {
    fn copied(&self, _alloc: Global) -> Result<ResetId, NoMemory> {
        Ok(*self)
    }
}

/// The id of a passthrough.
#[derive(Clone, Copy, Debug, PartialEq, Eq, Hash)]
pub struct PassId {
    number: u64,
}

impl Model for PassId {
    ghost use Rattle.std.specs.Prelude.{ℕ};

    ghost Value = { ℕ };

    ghost view = { λ id. id.number };

    ghost inverse = { λ n. record { number = n } };
}

impl PassId {
    pub fn new(number: u64) -> PassId
        ensures { result ≡ number }
    {
        PassId { number }
    }

    pub fn number(&self) -> u64
        ensures { result ≡ self.now }
    {
        self.number
    }
}

impl Copied for PassId {
    fn copied(&self, _alloc: Global) -> Result<PassId, NoMemory> {
        Ok(*self)
    }
}

/// The id of an event of any kind.
#[derive(Clone, Copy, Debug, PartialEq, Eq, Hash)]
pub enum AnyId {
    Blob(BlobId),
    Commit(CommitId),
    Tag(TagId),
    Reset(ResetId),
    Pass(PassId),
}

/// Ids of events of any kind.
pub type IdList = Items<AnyId>;

impl Copied for AnyId {
    fn copied(&self, _alloc: Global) -> Result<AnyId, NoMemory> {
        Ok(*self)
    }
}
