//! What a line is by its first word.
ghost use Rattle.std.specs.Prelude.{◌≡◌, codes, is_some};
ghost use Rattle.plain_model.specs.Fields.{is_left_out_word, first_word, after_space};
ghost use Rattle.plain_model.specs.Parts.{begins};
ghost use Rattle.stream_grammar.specs.Lines.{
  field_word,
  has_text,
  is_comment,
  is_inline,
  is_operation,
  other_word,
  text_of,
  word_of,
};

use crate::lines::Word;
use stream_fields::{is_word_left_out, words};

/// A comment. (git-fast-import, "Comments".)
pub fn is_comment(line: &[u8]) -> bool
    ensures { result ≡ is_comment line.now }
{
    line.starts_with(b"#".as_slice())
}

/// What is after the first space.
pub fn text_of(line: &[u8]) -> &[u8]
    ensures { result.now ≡ text_of line.now }
{
    match words(line).1 {
        Some(text) => text,
        None => &[],
    }
}

fn is_inline(line: &[u8]) -> bool
    ensures { result ≡ is_inline line.now }
{
    words(text_of(text_of(line))).0 == b"inline".as_slice()
}

fn is_operation(word: &[u8]) -> bool
    ensures { result ≡ is_operation word.now }
{
    word == b"M".as_slice()
        || word == b"D".as_slice()
        || word == b"C".as_slice()
        || word == b"R".as_slice()
}

fn has_text(keyword: &[u8], line: &[u8]) -> bool
    ensures { result ≡ has_text keyword.now line.now }
{
    let (word, text) = words(line);
    word == keyword && text.is_some()
}

impl Word {
    // What the line is, with this first word, if it is none of an event's.
    fn other(first: &[u8], line: &[u8]) -> Word
        requires { first.now ≡ first_word line.now }
        ensures { result ≡ other_word line.now }
    {
        if first == b"M".as_slice() && is_inline(line) {
            Word::InlineOperation
        } else if is_operation(first) || line == b"deleteall".as_slice() {
            Word::Operation
        } else if line == b"feature done".as_slice() {
            Word::FeatureDone
        } else if has_text(b"progress", line)
            || has_text(b"feature", line)
            || has_text(b"option", line)
            || line == b"checkpoint".as_slice()
        {
            Word::Pass
        } else if line == b"done".as_slice() {
            Word::Done
        } else if is_word_left_out(first) {
            Word::LeftOut
        } else {
            Word::Other
        }
    }

    // The same, if it begins no event.
    fn field(first: &[u8], line: &[u8]) -> Word
        requires { first.now ≡ first_word line.now }
        ensures { result ≡ field_word line.now }
    {
        if first == b"author".as_slice() {
            Word::Author
        } else if first == b"committer".as_slice() {
            Word::Committer
        } else if has_text(b"encoding", line) {
            Word::Encoding
        } else if first == b"data".as_slice() {
            Word::Data
        } else if first == b"from".as_slice() {
            Word::From
        } else if first == b"merge".as_slice() {
            Word::Merge
        } else if first == b"tagger".as_slice() {
            Word::Tagger
        } else if line == b"alias".as_slice() {
            Word::Alias
        } else if first == b"to".as_slice() {
            Word::To
        } else {
            Word::other(first, line)
        }
    }

    /// What the line is.
    pub fn of(line: &[u8]) -> Word
        ensures { result ≡ word_of line.now }
    {
        let first = words(line).0;
        if line == b"".as_slice() {
            Word::Empty
        } else if line == b"blob".as_slice() {
            Word::Blob
        } else if first == b"commit".as_slice() {
            Word::Commit
        } else if first == b"tag".as_slice() {
            Word::Tag
        } else if first == b"reset".as_slice() {
            Word::Reset
        } else if first == b"mark".as_slice() {
            Word::Mark
        } else if has_text(b"original-oid", line) {
            Word::Oid
        } else {
            Word::field(first, line)
        }
    }
}
