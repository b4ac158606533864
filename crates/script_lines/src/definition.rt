//! Lines that define macros.
ghost use Rattle.std.specs.Prelude.{◌≡◌, option_map};
ghost use Rattle.script_lines.specs.Scripts.{definition_in, opens};
ghost use Rattle.script_lines.specs.Words.{after_word, head_of};

use crate::names::is_given_name;
use crate::words::{cut_head, skip_blanks};

// The first word of a text, and what is after it.
fn cut_word(text: &str) -> (&str, &str)
    ensures head { result.0.now ≡ head_of text.now }
    ensures rest { result.1.now ≡ after_word text.now }
{
    let (head, after) = cut_head(text);
    (head, skip_blanks(after))
}

/// The name of the macro that a line defines, and what is after it; none where the line is no definition.
pub fn definition_in(text: &str) -> Option<(&str, &str)>
    ensures { option_map (λ d. (d.0.now, d.1.now)) result ≡ definition_in text.now }
{
    let (word, rest) = cut_word(text);
    let (name, body) = cut_word(rest);
    if word.as_bytes() == b"define".as_slice()
        && is_given_name(name.as_bytes())
        && !body.is_empty()
    {
        Some((name, body))
    } else {
        None
    }
}

/// Whether what is after the name opens a body of lines.
pub fn opens(body: &str) -> bool
    ensures { result ≡ opens body.now }
{
    body.as_bytes() == b"{".as_slice()
}
