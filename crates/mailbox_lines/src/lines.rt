//! Lines of a box, and of a comment that has one LF after it.
ghost use Rattle.std.specs.Prelude.{◌≡◌, ◌<◌, [], ◌∷◌, length, IfSome, MatchOption};
ghost use Rattle.mailbox_lines.specs.Cutting.{lines_left};
ghost use Rattle.mailbox_laws.specs.Boxes.{lines_in};
ghost use Rattle.plain_model.specs.Text.{line};

use bstr::ByteSlice;

/// The first line without its LF, and what follows it; none at the end of the bytes. A CR belongs to its line.
pub fn next_line(bytes: &[u8]) -> Option<(&[u8], &[u8])>
    ensures cut { MatchOption result (lines_in bytes.now ≡ [])
        (λ cut. lines_in bytes.now ≡ cut.0.now ∷ lines_in cut.1.now) }
    ensures shorter { IfSome result (λ cut. length cut.1.now < length bytes.now) }
{
    if bytes.is_empty() {
        return None;
    }
    match bytes.find_byte(b'\n') {
        Some(at) => Some((&bytes[..at], &bytes[at + 1..])),
        None => Some((bytes, &[])),
    }
}

/// The first line of a text that has one LF after it, and what of the text follows that line.
pub fn next_piece(text: &[u8]) -> (&[u8], Option<&[u8]>)
    ensures cut { lines_in (line text.now) ≡ result.0.now ∷ lines_left result.1 }
    ensures shorter { IfSome result.1 (λ more. length more.now < length text.now) }
{
    match text.find_byte(b'\n') {
        Some(at) => (&text[..at], Some(&text[at + 1..])),
        None => (text, None),
    }
}
