//! What is after the first words of the commonest lines: a pattern finds it where the line begins with that word, and else a
//! search.
ghost use Rattle.std.specs.Prelude.{◌≡◌};
ghost use Rattle.stream_grammar.specs.Lines.{text_of};

use stream_grammar::text_of;

pub fn text_of_mark(line: &[u8]) -> &[u8]
    ensures { result.now ≡ text_of line.now }
{
    match line {
        [b'm', b'a', b'r', b'k', b' ', text @ ..] => text,
        _ => text_of(line),
    }
}

pub fn text_of_author(line: &[u8]) -> &[u8]
    ensures { result.now ≡ text_of line.now }
{
    match line {
        [b'a', b'u', b't', b'h', b'o', b'r', b' ', text @ ..] => text,
        _ => text_of(line),
    }
}

pub fn text_of_committer(line: &[u8]) -> &[u8]
    ensures { result.now ≡ text_of line.now }
{
    match line {
        [
            b'c',
            b'o',
            b'm',
            b'm',
            b'i',
            b't',
            b't',
            b'e',
            b'r',
            b' ',
            text @ ..,
        ] => text,
        _ => text_of(line),
    }
}

pub fn text_of_commit(line: &[u8]) -> &[u8]
    ensures { result.now ≡ text_of line.now }
{
    match line {
        [b'c', b'o', b'm', b'm', b'i', b't', b' ', text @ ..] => text,
        _ => text_of(line),
    }
}

pub fn text_of_from(line: &[u8]) -> &[u8]
    ensures { result.now ≡ text_of line.now }
{
    match line {
        [b'f', b'r', b'o', b'm', b' ', text @ ..] => text,
        _ => text_of(line),
    }
}
