//! What a line is, by its first bytes.
ghost use Rattle.std.specs.Prelude.{◌≡◌};
ghost use Rattle.stream_grammar.specs.Lines.{word_of};

use stream_fields::words;
use stream_grammar::{Word, text_of};

/// What a line is. The commonest lines show it by their first bytes; of others each word that a line may begin with is compared.
pub fn word_of(line: &[u8]) -> Word
    ensures { result ≡ word_of line.now }
{
    match line {
        [] => Word::Empty,
        [b'b', b'l', b'o', b'b'] => Word::Blob,
        [b'm', b'a', b'r', b'k', b' ', ..] => Word::Mark,
        [b'd', b'a', b't', b'a', b' ', ..] => Word::Data,
        [b'f', b'r', b'o', b'm', b' ', ..] => Word::From,
        [b'c', b'o', b'm', b'm', b'i', b't', more @ ..] => match more {
            [b' ', ..] => Word::Commit,
            [b't', b'e', b'r', b' ', ..] => Word::Committer,
            _ => Word::of(line),
        },
        [b'a', b'u', b't', b'h', b'o', b'r', b' ', ..] => Word::Author,
        [b'M', b' ', text @ ..] => {
            if words(text_of(text)).0 == b"inline".as_slice() {
                Word::InlineOperation
            } else {
                Word::Operation
            }
        }
        _ => Word::of(line),
    }
}
