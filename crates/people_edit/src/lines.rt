//! Lines of an authors file.
ghost use Rattle.std.specs.Prelude.{◌≡◌, codes, option_map};
ghost use Rattle.people_laws.specs.Authors.{author_of, cut_by, is_passed_over};

use mailbox_reader::identity_in;

/// Whether a line is passed over: an empty one, or one that begins with `#`.
pub fn is_passed_over(line: &[u8]) -> bool
    ensures { result ≡ is_passed_over line.now }
{
    match line {
        [] => true,
        [first, ..] => *first == b'#',
    }
}

// What is before the first ` = `, and what is after it.
fn cut_by_equals(line: &[u8]) -> Option<(&[u8], &[u8])>
    ensures { option_map (λ x. (x.0.now, x.1.now)) result ≡ cut_by (codes " = ") line.now }
{
    match memchr::memmem::find(line, b" = ") {
        Some(at) => Some((&line[..at], &line[at + 3..])),
        None => None,
    }
}

/// An email, and the name and the email in its place, if a line says so.
#[tactic(auto, unfolding(people_laws::specs::Authors::author_of))]
pub fn author_in(line: &[u8]) -> Option<(&[u8], &[u8], &[u8])>
    ensures { option_map (λ x. record { key = x.0.now; person = record { name = x.1.now; email = x.2.now } }) result
        ≡ author_of line.now }
{
    let (key, after) = cut_by_equals(line)?;
    if key.is_empty() {
        return None;
    }
    let (name, email) = identity_in(after)?;
    if name.is_empty() {
        return None;
    }
    Some((key, name, email))
}
