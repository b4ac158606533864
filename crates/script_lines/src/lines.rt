//! Lines, each with what follows it; those that are never run, and those that are too long.
ghost use Rattle.std.specs.Prelude.{◌≡◌, ◌<◌, [], ◌∷◌, length, IfSome, MatchOption};
ghost use Rattle.script_lines.specs.Scripts.{is_long, is_nothing, lines_of, too_long};

use plain_model::{Fault, MAX_LINE_BYTES, Which};

/// The first line without its LF, and what follows it; none at the end of the bytes.
pub fn first_line(bytes: &[u8]) -> Option<(&[u8], &[u8])>
    ensures cut { MatchOption result (lines_of bytes.now ≡ [])
        (λ cut. lines_of bytes.now ≡ cut.0.now ∷ lines_of cut.1.now) }
    ensures shorter { IfSome result (λ cut. length cut.1.now < length bytes.now) }
{
    if bytes.is_empty() {
        return None;
    }
    match memchr::memchr(b'\n', bytes) {
        Some(at) => Some((&bytes[..at], &bytes[at + 1..])),
        None => Some((bytes, &[])),
    }
}

/// Whether a line is empty or a comment.
pub fn is_nothing(line: &str) -> bool
    ensures { result ≡ is_nothing line.now }
{
    match line.as_bytes() {
        [] => true,
        [b, ..] => *b == b'#',
    }
}

/// Whether a line has more bytes than one may have.
pub fn is_long(line: &str) -> bool
    ensures { result ≡ is_long line.now }
{
    line.len() as u64 > MAX_LINE_BYTES
}

/// What is reported of such a line.
pub fn too_long() -> Fault
    ensures { result ≡ too_long }
{
    Fault::ExpansionLimit {
        which: Which::LineBytes,
        number: MAX_LINE_BYTES,
    }
}
