//! Fields of lines at the end of a text. Where memory runs out, here and in the other modules,
//! it is left open how much of them is there.
ghost use Rattle.std.specs.Prelude.{◌≡◌, ◌≤◌, ◌++◌, codes, OnOk, IfSome};
ghost use Rattle.listing.specs.Listings.{first_line, number_text, tagged_text};
ghost use Rattle.plain_model.specs.Text.{line, marked};
ghost use Rattle.plain_model.specs.declared.limit.TheConstants.{MAX_SECONDS};

use civil_dates::push_date;
use plain_model::{NoMemory, Signed, Text};

/// Puts a number right in six places.
pub fn push_number(number: u64, into: &mut Text) -> Result<(), NoMemory>
    ensures { OnOk result (into.new ≡ into.old ++ number_text number) }
{
    let mut digits = into.empty_like();
    digits.push_number(number)?;
    for _ in digits.as_slice().len()..6 {
        into.push(b' ')?;
    }
    into.push_all(digits.as_slice())
}

/// Puts a mark with its colon.
pub fn push_mark(mark: u64, into: &mut Text) -> Result<(), NoMemory>
    ensures { OnOk result (into.new ≡ into.old ++ marked mark) }
{
    into.push(b':')?;
    into.push_number(mark)
}

/// The comment up to its first LF.
pub fn first_line(comment: &[u8]) -> &[u8]
    ensures { result.now ≡ first_line comment.now }
{
    match memchr::memchr(b'\n', comment) {
        Some(end) => &comment[..end],
        None => comment,
    }
}

/// Puts the date of a tag, or `-` where it has no tagger.
pub fn push_tagged(tagger: &Option<Signed>, into: &mut Text) -> Result<(), NoMemory>
    requires { IfSome tagger.now (λ t. t.when.seconds ≤ MAX_SECONDS) }
    ensures { OnOk result (into.new ≡ into.old ++ tagged_text tagger.now) }
{
    match tagger {
        Some(tagger) => push_date(tagger.when.seconds, into),
        None => into.push(b'-'),
    }
}

/// Puts a space, the comment up to its first LF, and the end of a line.
pub fn push_ending(comment: &[u8], into: &mut Text) -> Result<(), NoMemory>
    ensures { OnOk result (into.new ≡ into.old ++ line (codes " " ++ first_line comment.now)) }
{
    into.push(b' ')?;
    into.push_all(first_line(comment))?;
    into.push(b'\n')
}
