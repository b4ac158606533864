//! Fields at the end of a text: each is put whole, or the text stays as it was. What is written is read again as the
//! same value.
ghost use Rattle.std.specs.Prelude.{
  ◌≡◌,
  ℕ,
  List,
  ◌∷◌,
  ◌++◌,
  Ok,
  OnOk,
  OnErr,
  IsTrue,
  codes,
  length,
  take,
};
ghost use Rattle.plain_model.specs.Fields.{
  mark_in,
  person_in,
  path_in,
  may_follow,
  op_in,
  block_in,
  HasItsContent,
};
ghost use Rattle.plain_model.specs.Soundness.{IsFormedSigned};
ghost use Rattle.plain_model.specs.Numbers.{decimal_of};
ghost use Rattle.plain_model.specs.Text.{marked, person, path_text, raw_op_text, data_block};
ghost use Rattle.stream_fields.specs.Written.{date};

use crate::written_parts::{push_data, push_date, push_marked, push_op, push_path, push_person};
use plain_model::{Mark, NoMemory, Path, Place, RawOp, Signed, Text, When};

// What was put after so many bytes goes again where memory ran out.
fn whole_or_none(into: &mut Text, before: usize, put: Result<(), NoMemory>) -> Result<(), NoMemory>
    ensures same { result ≡ put }
    ensures ok { OnOk result (into.new ≡ into.old) }
    ensures err { OnErr result (into.new ≡ take before into.old) }
{
    if put.is_err() {
        into.truncate(before);
    }
    put
}

/// Puts a mark with its colon. (git-fast-import, `mark`.)
#[tactic(auto, using(field_laws::proofs::FieldsAgain::mark_again))]
pub fn write_mark(mark: Mark, into: &mut Text) -> Result<(), NoMemory>
    ensures ok { OnOk result (into.new ≡ into.old ++ marked mark) }
    ensures err { OnErr result (into.new ≡ into.old) }
    ensures again { OnOk result (mark_in (marked mark) ≡ Ok mark) }
{
    let before = into.as_slice().len();
    let put = push_marked(into, mark.number());
    whole_or_none(into, before, put)
}

/// Puts who and when: the name and a space, if there is a name, the email in `<` and `>`, the seconds without leading
/// zeros, the sign and four digits of the zone. (git-fast-import, `committer`.)
#[tactic(auto, using(field_laws::proofs::FieldsAgain::person_again))]
pub fn write_person(signed: &Signed, into: &mut Text) -> Result<(), NoMemory>
    ensures ok { OnOk result (into.new ≡ into.old ++ person signed.now) }
    ensures err { OnErr result (into.new ≡ into.old) }
    ensures again { OnOk result
        (IsFormedSigned signed.now → person_in (person signed.now) ≡ Ok signed.now) }
{
    let before = into.as_slice().len();
    let put = push_person(into, signed);
    whole_or_none(into, before, put)
}

/// Puts when: the seconds without leading zeros, the sign and four digits of the zone. (git-fast-import, `<when>`.)
pub fn write_when(when: &When, into: &mut Text) -> Result<(), NoMemory>
    ensures ok { OnOk result (into.new ≡ into.old ++ date when.now) }
    ensures err { OnErr result (into.new ≡ into.old) }
{
    let before = into.as_slice().len();
    let put = push_date(into, when);
    whole_or_none(into, before, put)
}

/// Puts a path, in quotes exactly where it begins with one, holds an LF, or is before another path and holds a
/// space. In quotes a backslash is before `"` and a backslash, and LF is `\n`. (git-fast-import, `<path>`.)
#[tactic(auto, using(field_laws::proofs::PathsAgain::path_again))]
pub fn write_path(path: &Path, place: Place, into: &mut Text) -> Result<(), NoMemory>
    ensures ok { OnOk result (into.new ≡ into.old ++ path_text place path.now) }
    ensures err { OnErr result (into.new ≡ into.old) }
    ensures again { OnOk result ((rest : List ℕ) → IsTrue (may_follow place rest)
        → path_in place (path_text place path.now ++ rest)
        ≡ Ok (path.now, length (path_text place path.now))) }
{
    let before = into.as_slice().len();
    let put = push_path(into, path, place);
    whole_or_none(into, before, put)
}

/// Puts an operation without the end of its line. One that gives a link to another repository a mark or bytes is
/// written too, and isn't read again. (git-fast-import, `M`, `D`, `C`, `R`, `deleteall`.)
#[tactic(auto, using(field_laws::proofs::FieldsAgain::op_again))]
pub fn write_op(op: &RawOp, into: &mut Text) -> Result<(), NoMemory>
    ensures ok { OnOk result (into.new ≡ into.old ++ raw_op_text op.now) }
    ensures err { OnErr result (into.new ≡ into.old) }
    ensures again { OnOk result
        (HasItsContent op.now → op_in (raw_op_text op.now) ≡ Ok op.now) }
{
    let before = into.as_slice().len();
    let put = push_op(into, op);
    whole_or_none(into, before, put)
}

/// Puts the line `data COUNT`, the bytes and an LF. (git-fast-import, `data`.)
pub fn write_data(bytes: &[u8], into: &mut Text) -> Result<(), NoMemory>
    ensures ok { OnOk result (into.new ≡ into.old ++ data_block bytes.now) }
    ensures err { OnErr result (into.new ≡ into.old) }
    ensures again { OnOk result ((rest : List ℕ)
        → block_in (codes "data " ++ decimal_of (length bytes.now)) (bytes.now ++ 10 ∷ rest)
        ≡ Ok (bytes.now, rest)) }
{
    let before = into.as_slice().len();
    match push_data(into, bytes) {
        Ok(()) => Ok(()),
        Err(NoMemory) => {
            into.truncate(before);
            Err(NoMemory)
        }
    }
}
