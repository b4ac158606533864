//! Laws of selections. A caller has one by a call of its function.
ghost use Rattle.std.specs.Prelude.{◌≡◌, ℕ, Bool, List, map, Vec, Box};
ghost use Rattle.std.specs.Global.{Global};
ghost use Rattle.plain_model.specs.Paths.{Bytes};
ghost use Rattle.selection_parser.specs.Plain.{PlainSelection, in_order};
ghost use Rattle.selection_parser.specs.Reading.{selection_at, IsRightAnswer};
ghost use Rattle.selection_parser.specs.Spelling.{Spells};
ghost use Rattle.selection_parser.specs.Views.{plain_of};
ghost use Rattle.selection_parser.specs.declared.field.FieldSet.{FieldSet};
ghost use Rattle.selection_parser.specs.declared.function.Function.{Function};
ghost use Rattle.selection_parser.specs.declared.item.Item.{Item};
ghost use Rattle.selection_parser.specs.declared.kind.KindSet.{KindSet};
ghost use Rattle.selection_parser.specs.declared.selection.Selection.{Selection};
ghost use Rattle.selection_parser.specs.declared.selection.Selection.TheVariants as selection;

/// A text spells one selection at most.
pub fn one_selection()
    ensures { (text : Bytes) (x y : PlainSelection) → Spells text x → Spells text y → x ≡ y }
{}

/// What is read of a text is the selection at its front, or the column where that is none, whoever reads it.
pub fn read_rightly()
    ensures { (text : Bytes) → IsRightAnswer text (selection_at text) }
{}

/// Each variant of a selection as a plain one, for a function that goes by cases on a selection.
#[tactic(auto, using(crate::proofs::Layers::layers))]
pub fn plain_by_variant()
    ensures union { (all : Vec Selection Global)
        → plain_of (selection.Union all) ≡ PlainSelection.Union (in_order (map plain_of all.items)) }
    ensures both { (all : Vec Selection Global)
        → plain_of (selection.Both all) ≡ PlainSelection.Both (in_order (map plain_of all.items)) }
    ensures not { (x : Box Selection Global) → plain_of (selection.Not x) ≡ PlainSelection.Not (plain_of x.value) }
    ensures near { (times : ℕ) (x : Box Selection Global)
        → plain_of (selection.Near times x) ≡ PlainSelection.Near times (plain_of x.value) }
    ensures call { (f : Function) (x : Box Selection Global)
        → plain_of (selection.Call f x) ≡ PlainSelection.Call f (plain_of x.value) }
    ensures kinds { (set : KindSet) → plain_of (selection.Kinds set) ≡ PlainSelection.Kinds set }
    ensures search { (pattern : Bytes) (fields : FieldSet)
        → plain_of (selection.Search pattern fields) ≡ PlainSelection.Search pattern fields }
    ensures at_path { (path : Bytes) → plain_of (selection.AtPath path) ≡ PlainSelection.AtPath path }
    ensures at_pattern { (pattern : Bytes) (whole : Bool)
        → plain_of (selection.AtPattern pattern whole) ≡ PlainSelection.AtPattern pattern whole }
    ensures items { (list : List Item) → plain_of (selection.Items list) ≡ PlainSelection.Listed list }
{}
