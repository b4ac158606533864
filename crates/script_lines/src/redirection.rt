//! Redirections: the last word of a line that names a file to read or to write.
ghost use Rattle.std.specs.Prelude.{◌≡◌};
ghost use Rattle.std.specs.Option.{option_copied};
ghost use Rattle.script_lines.specs.Redirections.{
  begins_with_sign,
  is_redirection,
  is_sign,
  is_target,
  redirected,
  sign_of,
};

use crate::word::Word;

/// Where the bytes of a redirection go.
#[derive(Clone, Copy)]
pub enum Direction {
    /// `<FILE`: a file is read.
    Input,
    /// `>FILE`: a file is written.
    Output,
}

impl Direction {
    fn sign(self) -> u8
        ensures { result ≡ sign_of self }
    {
        match self {
            Direction::Input => b'<',
            Direction::Output => b'>',
        }
    }
}

fn is_sign(byte: u8) -> bool
    ensures { result ≡ is_sign byte }
{
    byte == b'<' || byte == b'>'
}

// Whether a file's name may be after a sign.
fn is_target(name: &[u8]) -> bool
    ensures { result ≡ is_target name.now }
{
    match name {
        [] => false,
        [b, ..] => !is_sign(*b),
    }
}

// Whether a text is the sign with such a name after it.
fn is_redirection(direction: Direction, text: &[u8]) -> bool
    ensures { result ≡ is_redirection direction text.now }
{
    match text {
        [] => false,
        [b, name @ ..] => *b == direction.sign() && is_target(name),
    }
}

/// The file's name in a last word, if it is a right redirection in this direction.
pub fn redirected(direction: Direction, word: &Word) -> Option<&str>
    ensures { option_copied result ≡ redirected direction word.now }
{
    match word {
        Word::Plain(text) if is_redirection(direction, text.as_bytes()) => {
            Some(&text.as_str()[1..])
        }
        _ => None,
    }
}

/// Whether the bytes begin with such a sign.
pub fn begins_with_sign(text: &[u8]) -> bool
    ensures { result ≡ begins_with_sign text.now }
{
    match text {
        [] => false,
        [b, ..] => is_sign(*b),
    }
}
