//! Lines at the end of a text. Where memory runs out, here and in the other modules, it is
//! left open how much of them is there: the text is dropped then.
ghost use Rattle.std.specs.Prelude.{◌≡◌, ◌++◌, codes, true, OnOk};
ghost use Rattle.std.specs.Fmt.{decimal};
ghost use Rattle.plain_model.specs.Text.{line, marked, person};

use plain_model::{NoMemory, Signed, Text};
use stream_fields::write_person;

/// Puts a line of a word and a rest.
pub fn push_line(out: &mut Text, word: &[u8], rest: &[u8]) -> Result<(), NoMemory>
    ensures { OnOk result (out.new ≡ out.old ++ line (word.now ++ rest.now)) }
{
    out.push_all(word)?;
    out.push_all(rest)?;
    out.push(b'\n')
}

/// Puts a mark with its colon.
pub fn push_marked(out: &mut Text, mark: u64) -> Result<(), NoMemory>
    ensures { OnOk result (out.new ≡ out.old ++ marked mark) }
{
    out.push(b':')?;
    out.push_number(mark)
}

/// Puts a line that ends in a mark; what is before that goes up to the colon.
pub fn push_mark_line(out: &mut Text, front: &[u8], mark: u64) -> Result<(), NoMemory>
    ensures { OnOk result (out.new ≡ out.old ++ line (front.now ++ decimal mark)) }
{
    out.push_all(front)?;
    out.push_number(mark)?;
    out.push(b'\n')
}

/// Puts a line of a word and of who and when.
pub fn push_signed_line(out: &mut Text, word: &[u8], signed: &Signed) -> Result<(), NoMemory>
    ensures { OnOk result (out.new ≡ out.old ++ line (word.now ++ person signed.now)) }
{
    out.push_all(word)?;
    write_person(signed, out)?;
    out.push(b'\n')
}

// Whether both say the same of who and when.
fn are_same(one: &Signed, other: &Signed) -> bool
    ensures { result ≡ true → one.now ≡ other.now }
{
    let (person, others) = (one.person.as_ref(), other.person.as_ref());
    one.when == other.when
        && person.name.as_slice() == others.name.as_slice()
        && person.email.as_slice() == others.email.as_slice()
}

// Spells who and when, and the end of the line, in a text of its own.
fn spell(spelled: &mut Text, signed: &Signed) -> Result<(), NoMemory>
    ensures { OnOk result (spelled.new ≡ line (person signed.now)) }
{
    spelled.truncate(0);
    write_person(signed, spelled)?;
    spelled.push(b'\n')
}

/// Puts the lines of who wrote a commit and who put it in. These mostly say the same, which is spelled once then.
pub fn push_people(
    out: &mut Text,
    spelled: &mut Text,
    author: &Signed,
    committer: &Signed,
) -> Result<(), NoMemory>
    ensures { OnOk result (out.new ≡ out.old ++ line (codes "author " ++ person author.now)
        ++ line (codes "committer " ++ person committer.now)) }
{
    spell(spelled, author)?;
    out.push_all(b"author ")?;
    out.push_all(spelled.as_slice())?;
    if !are_same(author, committer) {
        spell(spelled, committer)?;
    }
    out.push_all(b"committer ")?;
    out.push_all(spelled.as_slice())
}
