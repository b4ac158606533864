//! Which line may be where.
ghost use Rattle.std.specs.Prelude.{◌≡◌};
ghost use Rattle.stream_grammar.specs.Lines.{
  begun_by,
  after_word,
  follows,
  gone_on,
  is_inline_expected,
  is_required,
  must_go_on,
};

use crate::lines::{Expected, Follow, Standing, Word};
use plain_model::Why;

impl Expected {
    /// The event misses a line.
    pub fn is_required(self) -> bool
        ensures { result ≡ is_required self }
    {
        match self {
            Expected::Event
            | Expected::CommitFrom
            | Expected::CommitMerge
            | Expected::CommitOperation
            | Expected::ResetFrom
            | Expected::ResetEnd => false,
            _ => true,
        }
    }

    /// What a line of this word does here.
    pub fn follow(self, word: Word) -> Follow
        ensures { result ≡ follows self word }
    {
        match self {
            Expected::Event => Follow::Finished,
            Expected::BlobMark => match word {
                Word::Mark => Follow::Goes(Expected::BlobOid),
                Word::Oid => Follow::Goes(Expected::BlobData),
                Word::Data => Follow::Goes(Expected::Event),
                _ => Follow::Missing,
            },
            Expected::BlobOid => match word {
                Word::Oid => Follow::Goes(Expected::BlobData),
                Word::Data => Follow::Goes(Expected::Event),
                _ => Follow::Missing,
            },
            Expected::BlobData => match word {
                Word::Data => Follow::Goes(Expected::Event),
                _ => Follow::Missing,
            },
            Expected::CommitMark => match word {
                Word::Mark => Follow::Goes(Expected::CommitOid),
                Word::Oid => Follow::Goes(Expected::CommitAuthor),
                Word::Author => Follow::Goes(Expected::CommitCommitter),
                Word::Committer => Follow::Goes(Expected::CommitEncoding),
                _ => Follow::Missing,
            },
            Expected::CommitOid => match word {
                Word::Oid => Follow::Goes(Expected::CommitAuthor),
                Word::Author => Follow::Goes(Expected::CommitCommitter),
                Word::Committer => Follow::Goes(Expected::CommitEncoding),
                _ => Follow::Missing,
            },
            Expected::CommitAuthor => match word {
                Word::Author => Follow::Goes(Expected::CommitCommitter),
                Word::Committer => Follow::Goes(Expected::CommitEncoding),
                _ => Follow::Missing,
            },
            Expected::CommitCommitter => match word {
                Word::Committer => Follow::Goes(Expected::CommitEncoding),
                _ => Follow::Missing,
            },
            Expected::CommitEncoding => match word {
                Word::Encoding => Follow::Goes(Expected::CommitData),
                Word::Data => Follow::Goes(Expected::CommitFrom),
                _ => Follow::Missing,
            },
            Expected::CommitData => match word {
                Word::Data => Follow::Goes(Expected::CommitFrom),
                _ => Follow::Missing,
            },
            Expected::CommitFrom => match word {
                Word::From | Word::Merge => Follow::Goes(Expected::CommitMerge),
                Word::Operation => Follow::Goes(Expected::CommitOperation),
                Word::InlineOperation => Follow::Goes(Expected::InlineData),
                _ => Follow::Finished,
            },
            Expected::CommitMerge => match word {
                Word::Merge => Follow::Goes(Expected::CommitMerge),
                Word::Operation => Follow::Goes(Expected::CommitOperation),
                Word::InlineOperation => Follow::Goes(Expected::InlineData),
                _ => Follow::Finished,
            },
            Expected::CommitOperation => match word {
                Word::Operation => Follow::Goes(Expected::CommitOperation),
                Word::InlineOperation => Follow::Goes(Expected::InlineData),
                _ => Follow::Finished,
            },
            Expected::InlineData => match word {
                Word::Data => Follow::Goes(Expected::CommitOperation),
                _ => Follow::Missing,
            },
            Expected::TagMark => match word {
                Word::Mark => Follow::Goes(Expected::TagFrom),
                Word::From => Follow::Goes(Expected::TagOid),
                _ => Follow::Missing,
            },
            Expected::TagFrom => match word {
                Word::From => Follow::Goes(Expected::TagOid),
                _ => Follow::Missing,
            },
            Expected::TagOid => match word {
                Word::Oid => Follow::Goes(Expected::TagTagger),
                Word::Tagger => Follow::Goes(Expected::TagData),
                Word::Data => Follow::Goes(Expected::Event),
                _ => Follow::Missing,
            },
            Expected::TagTagger => match word {
                Word::Tagger => Follow::Goes(Expected::TagData),
                Word::Data => Follow::Goes(Expected::Event),
                _ => Follow::Missing,
            },
            Expected::TagData => match word {
                Word::Data => Follow::Goes(Expected::Event),
                _ => Follow::Missing,
            },
            Expected::ResetFrom => match word {
                Word::From => Follow::Goes(Expected::ResetEnd),
                _ => Follow::Finished,
            },
            Expected::ResetEnd => Follow::Finished,
            Expected::AliasMark => match word {
                Word::Mark => Follow::Goes(Expected::AliasTo),
                _ => Follow::Missing,
            },
            Expected::AliasTo => match word {
                Word::To => Follow::Goes(Expected::Event),
                _ => Follow::Missing,
            },
        }
    }
}

impl Standing {
    // After a line between events.
    fn begun_by(self, word: Word) -> Result<Standing, Why>
        ensures { result ≡ begun_by self word }
    {
        let expected = match word {
            Word::Blob => Expected::BlobMark,
            Word::Commit => Expected::CommitMark,
            Word::Tag => Expected::TagMark,
            Word::Reset => Expected::ResetFrom,
            Word::Alias => Expected::AliasMark,
            Word::Pass | Word::Empty | Word::FeatureDone | Word::Done => Expected::Event,
            _ => return Err(Why::UnknownLine),
        };
        let wants_done = match word {
            Word::FeatureDone => true,
            Word::Done => false,
            _ => self.wants_done,
        };
        Ok(Standing {
            expected,
            wants_done,
        })
    }

    /// Where the stream is after a line of this word, or why it can't be here.
    pub fn after(self, word: Word) -> Result<Standing, Why>
        ensures { result ≡ after_word self word }
    {
        if word == Word::LeftOut {
            return Err(Why::LeftOut);
        }
        match self.expected.follow(word) {
            Follow::Goes(expected) => Ok(Standing { expected, ..self }),
            Follow::Missing => Err(Why::MissingLine),
            Follow::Finished => self.begun_by(word),
        }
    }

    /// A block that comes here is the content of an operation.
    pub fn is_inline(self) -> bool
        ensures { result ≡ is_inline_expected self.expected }
    {
        self.expected == Expected::CommitOperation
    }

    /// A stream can't end here.
    pub fn must_go_on(self) -> bool
        ensures { result ≡ must_go_on self }
    {
        self.expected.is_required() || self.wants_done
    }
}
