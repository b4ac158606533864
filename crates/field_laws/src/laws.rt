//! Laws of fields. Each function's contract is one, and its body is empty.

ghost use Rattle.std.specs.Prelude.{
  ◌≡◌,
  ◌↔◌,
  ◌<◌,
  ◌^◌,
  ◌∷◌,
  ◌++◌,
  ℕ,
  List,
  Ok,
  IsTrue,
  codes,
  decimal,
  length,
};
ghost use Rattle.plain_model.specs.declared.person.Signed.{Signed};
ghost use Rattle.plain_model.specs.declared.raw.Place.{Place};
ghost use Rattle.plain_model.specs.declared.raw.RawOp.{RawOp};
ghost use Rattle.plain_model.specs.Fields.{
  mark_in,
  person_in,
  path_in,
  may_follow,
  op_in,
  block_in,
  OpFits,
  HasItsContent,
};
ghost use Rattle.plain_model.specs.Marks.{IsMark};
ghost use Rattle.plain_model.specs.Numbers.{IsNumeral, decimal_of};
ghost use Rattle.plain_model.specs.Paths.{IsPath};
ghost use Rattle.plain_model.specs.People.{IsSigned};
ghost use Rattle.plain_model.specs.Soundness.{IsFormedSigned};
ghost use Rattle.plain_model.specs.Text.{marked, person, path_text, raw_op_text};

/// Who and when are read exactly where a text spells them.
pub fn people_are_read_as_spelled()
    ensures { (text : List ℕ) (who : Signed) → (person_in text ≡ Ok who) ↔ IsSigned text who }
{}

/// A mark that is written is read again.
pub fn marks_are_read_again()
    ensures { (mark : ℕ) → IsMark mark → mark_in (marked mark) ≡ Ok mark }
{}

/// Who and when, as a line can say them, are read again.
pub fn people_are_read_again()
    ensures { (who : Signed) → IsFormedSigned who → person_in (person who) ≡ Ok who }
{}

/// A path is read again, whatever may follow it, and its spelling is taken whole.
pub fn paths_are_read_again()
    ensures { (place : Place) (path rest : List ℕ) → IsPath path → IsTrue (may_follow place rest)
        → path_in place (path_text place path ++ rest) ≡ Ok (path, length (path_text place path)) }
{}

/// An operation is read again, where a link to another repository has an object's id.
pub fn operations_are_read_again()
    ensures { (op : RawOp) → OpFits op → HasItsContent op → op_in (raw_op_text op) ≡ Ok op }
{}

/// A block of data is read again after its line, whatever follows the LF after it.
pub fn data_is_read_again()
    ensures { (bytes rest : List ℕ) →
        block_in (codes "data " ++ decimal_of (length bytes)) (bytes ++ 10 ∷ rest)
        ≡ Ok (bytes, rest) }
{}

/// The digits that are written of a number say it, however great it is. Below 10^64 they are those that the library writes.
pub fn numbers_are_read_again()
    ensures said { (n : ℕ) → IsNumeral (decimal_of n) n }
    ensures same { (n : ℕ) → n < 10 ^ 64 → decimal_of n ≡ decimal n }
{}
