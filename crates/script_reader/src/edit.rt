//! Edits of the chosen history: their command words, and what the words after these say.
ghost use Rattle.std.specs.Prelude.{◌≡◌, option_and_then};
ghost use Rattle.plain_model.specs.Faults.{Returns};
ghost use Rattle.plain_model.specs.Policies.{delete_how};
ghost use Rattle.script_lines.specs.Texts.{or_at_fault, text_before, whole_in};
ghost use Rattle.script_reader.specs.Cuts.{cut_of};
ghost use Rattle.script_reader.specs.Edits.{
  add_words,
  asked_by,
  coalesce_words,
  cut_form,
  edit_word,
  may_select,
  needs_selection,
  op_by,
  path_from,
  path_to,
  path_words,
  paths_by,
  paths_words,
  removal_of,
  remove_words,
  reparent_words,
  reparenting_by,
  said_of,
  says_rename,
  split_words,
  squash_words,
  word_of,
};
ghost use Rattle.script_reader.specs.Forms.{alone};
ghost use Rattle.script_reader.specs.Numbers.{index_in, seconds_in};
ghost use Rattle.script_reader.specs.Options.{asked_more, reparenting_more, squash_option};
ghost use Rattle.script_reader.specs.Spelled.{op_more};
ghost use Rattle.script_reader.specs.Ways.{way_of};
ghost use Rattle.script_reader.specs.declared.edit.Edit.TheVariants as edit;

use crate::cut::Cut;
use crate::field_words::{set_field, time_offset};
use crate::number::{USUAL_SECONDS, index_in, seconds_in};
use crate::options::{Asked, Reparenting, SquashOption};
use crate::spelled::{SaidOp, SpelledOp};
use crate::way::Way;
use event_fields::{FieldValue, Zone};
use plain_model::{Halt, Lean, Policy, Push};
use script_lines::{ScriptText, Word, at_fault, bad_words, or_at_fault, text_before};
use std::alloc::Global;

/// An edit of selected events as it was read. (reposurgeon manual, the section of each command word)
#[derive(Drop)]
pub enum Edit {
    /// Removes them. What removed commits had goes where the policy says.
    Squash(Policy),
    /// Cuts a commit in two before its operation of this number, from 1.
    SplitAt(u64),
    /// Cuts a commit in two before its first operation that touches this path.
    SplitBy(ScriptText),
    /// Puts commits that are a line into the order of the selection.
    Reorder,
    /// Gives a commit other parents.
    Reparent(Reparenting),
    /// Gives the later of two commits the earlier one as one more parent.
    Merge,
    /// Leaves a commit its first parent alone.
    Unmerge,
    /// Puts an operation at the end of those of a commit.
    Add(SpelledOp),
    /// Takes away a commit's operation of this number, from 1.
    RemoveAt(u64),
    /// Takes away the operations of a commit that have this path as theirs, as their source or as their target.
    RemoveBy(ScriptText),
    /// Joins commits to the next ones that go on with the same work, at most so many seconds later.
    Coalesce(u64),
    /// Drops operations that later ones of the same commit make void.
    Simplify,
    /// Moves a path, with all below it, to another one.
    PathRename {
        source: ScriptText,
        target: ScriptText,
    },
    /// Moves all paths to below a folder.
    PathsSub(ScriptText),
    /// Moves what is below a folder out of it.
    PathsSup(ScriptText),
    /// Moves the dates of commits and tags by so many seconds, and into a zone where one is said.
    TimeOffset {
        seconds: i64,
        zone: Option<Zone>,
    },
    /// Gives events another comment, branch or name.
    SetField(FieldValue),
    /// Makes tags of the commits that do nothing.
    Tagify,
}

/// The command word of an edit. (reposurgeon manual)
#[derive(Clone, Copy)]
pub enum EditWord {
    Squash,
    Delete,
    Split,
    Reorder,
    Reparent,
    Merge,
    Unmerge,
    Add,
    Remove,
    Coalesce,
    Simplify,
    Path,
    Paths,
    TimeOffset,
    SetField,
    Tagify,
}

// An edit after whose command word is no word.
fn only(alloc: Global, what: Edit, words: &[Word]) -> Result<Edit, Halt>
    ensures { Returns (λ what. what) result (alone what words.now) }
{
    match words {
        [] => Ok(what),
        [word, ..] => Err(at_fault(alloc, word)),
    }
}

// The option of `squash` that a word is.
fn squash_option(word: &Word) -> Option<SquashOption>
    ensures { result ≡ option_and_then squash_option (whole_in word.now) }
{
    SquashOption::of(word.whole()?.as_bytes())
}

// What options ask for with one more word, if it is an option and can follow them.
fn asked_more(asked: Asked, word: &Word) -> Option<Asked>
    ensures { result ≡ option_and_then (asked_more asked)
        (option_and_then squash_option (whole_in word.now)) }
{
    asked.more(squash_option(word)?)
}

// What the options ask for that follow some.
fn asked_by(alloc: Global, asked: Asked, words: &[Word]) -> Result<Asked, Halt>
    ensures { Returns (λ asked. asked) result (asked_by asked words.now) }
{
    match words {
        [] => Ok(asked),
        [word, others @ ..] => {
            let more = or_at_fault(alloc, word, asked_more(asked, word))?;
            asked_by(alloc, more, others)
        }
    }
}

// `[--pushforward | --pushback | --delete] [--tagforward | --tagback]`
#[tactic(auto, unfolding(crate::specs::Edits::squash_words))]
fn squash(alloc: Global, words: &[Word]) -> Result<Edit, Halt>
    ensures { Returns (λ what. what) result (squash_words words.now) }
{
    let asked = asked_by(alloc, Asked::nothing(), words)?;
    Ok(Edit::Squash(asked.policy()))
}

// Nothing is after `delete`.
fn delete(alloc: Global, words: &[Word]) -> Result<Edit, Halt>
    ensures { Returns (λ what. what) result (alone (edit.Squash delete_how) words.now) }
{
    let how = Policy {
        push: Push::Discard,
        tags: Lean::Forward,
    };
    only(alloc, Edit::Squash(how), words)
}

// The word after `split`.
fn cut_in(word: &Word) -> Option<Cut>
    ensures { result ≡ option_and_then cut_of (whole_in word.now) }
{
    Cut::of(word.whole()?.as_bytes())
}

// The number of an operation that a word says.
fn index(word: &Word) -> Option<u64>
    ensures { result ≡ option_and_then index_in (whole_in word.now) }
{
    index_in(word.whole()?.as_bytes())
}

// What is after `at`, or after `by`.
fn cut(alloc: Global, place: Cut, words: &[Word]) -> Result<Edit, Halt>
    ensures { Returns (λ what. what) result (cut_form place words.now) }
{
    let [word, others @ ..] = words else {
        return Err(bad_words(alloc, b"split"));
    };
    let what = match place {
        Cut::At => Edit::SplitAt(or_at_fault(alloc, word, index(word))?),
        Cut::By => Edit::SplitBy(text_before(alloc, others, word)?),
    };
    match others {
        [] => Ok(what),
        [next, ..] => Err(at_fault(alloc, next)),
    }
}

// `at NUMBER`, `by PATH`
#[tactic(auto, unfolding(crate::specs::Edits::split_words))]
fn split(alloc: Global, words: &[Word]) -> Result<Edit, Halt>
    ensures { Returns (λ what. what) result (split_words words.now) }
{
    let [word, others @ ..] = words else {
        return Err(bad_words(alloc, b"split"));
    };
    let place = or_at_fault(alloc, word, cut_in(word))?;
    cut(alloc, place, others)
}

// What options of `reparent` say with one more word, if it is one.
fn reparenting_more(how: Reparenting, word: &Word) -> Option<Reparenting>
    ensures { result ≡ option_and_then (reparenting_more how) (whole_in word.now) }
{
    how.more(word.whole()?.as_bytes())
}

// What the options of `reparent` say that follow some.
fn reparenting_by(alloc: Global, how: Reparenting, words: &[Word]) -> Result<Reparenting, Halt>
    ensures { Returns (λ how. how) result (reparenting_by how words.now) }
{
    match words {
        [] => Ok(how),
        [word, others @ ..] => {
            let more = or_at_fault(alloc, word, reparenting_more(how, word))?;
            reparenting_by(alloc, more, others)
        }
    }
}

// `[--use-order] [--rebase]`
#[tactic(auto, unfolding(crate::specs::Edits::reparent_words))]
fn reparent(alloc: Global, words: &[Word]) -> Result<Edit, Halt>
    ensures { Returns (λ what. what) result (reparent_words words.now) }
{
    let how = reparenting_by(alloc, Reparenting::plain(), words)?;
    Ok(Edit::Reparent(how))
}

// What the words of an operation say with one more word, before such others.
fn op_more(alloc: Global, said: SaidOp, others: &[Word], word: &Word) -> Result<SaidOp, Halt>
    ensures { Returns (λ said. said) result
        (or_at_fault word.now (option_and_then (op_more said) (text_before others.now word.now))) }
{
    let text = text_before(alloc, others, word)?;
    let more = said.more(alloc, text.as_bytes())?;
    or_at_fault(alloc, word, more)
}

// What the words of an operation say that follow some.
fn op_by(alloc: Global, said: SaidOp, words: &[Word]) -> Result<SaidOp, Halt>
    ensures { Returns (λ said. said) result (op_by said words.now) }
{
    match words {
        [] => Ok(said),
        [word, others @ ..] => {
            let more = op_more(alloc, said, others, word)?;
            op_by(alloc, more, others)
        }
    }
}

// `M MODE :MARK PATH`, `M MODE ID PATH`, `D PATH`, `C SOURCE TARGET`, `R SOURCE TARGET`, `deleteall`
#[tactic(auto, unfolding(crate::specs::Edits::add_words))]
fn add(alloc: Global, words: &[Word]) -> Result<Edit, Halt>
    ensures { Returns (λ what. what) result (add_words words.now) }
{
    let said = op_by(alloc, SaidOp::Nothing, words)?;
    match said.whole() {
        Some(op) => Ok(Edit::Add(SpelledOp::new(op))),
        None => Err(bad_words(alloc, b"add")),
    }
}

// Digits are the number of an operation, and all else is a path.
fn removal_of(text: ScriptText) -> Edit
    ensures { result ≡ removal_of text }
{
    match index_in(text.as_bytes()) {
        Some(number) => Edit::RemoveAt(number),
        None => Edit::RemoveBy(text),
    }
}

// `NUMBER`, `PATH`
#[tactic(auto, unfolding(crate::specs::Edits::remove_words))]
fn remove(alloc: Global, words: &[Word]) -> Result<Edit, Halt>
    ensures { Returns (λ what. what) result (remove_words words.now) }
{
    let [word, others @ ..] = words else {
        return Err(bad_words(alloc, b"remove"));
    };
    let text = text_before(alloc, others, word)?;
    only(alloc, removal_of(text), others)
}

// The number of seconds that a word says.
fn seconds(word: &Word) -> Option<u64>
    ensures { result ≡ option_and_then seconds_in (whole_in word.now) }
{
    seconds_in(word.whole()?.as_bytes())
}

// `[SECONDS]`
#[tactic(auto, unfolding(crate::specs::Edits::coalesce_words))]
fn coalesce(alloc: Global, words: &[Word]) -> Result<Edit, Halt>
    ensures { Returns (λ what. what) result (coalesce_words words.now) }
{
    match words {
        [] => Ok(Edit::Coalesce(USUAL_SECONDS)),
        [word, others @ ..] => {
            let seconds = or_at_fault(alloc, word, seconds(word))?;
            only(alloc, Edit::Coalesce(seconds), others)
        }
    }
}

// Whether a word is `rename`.
fn says_rename(word: &Word) -> bool
    ensures { result ≡ says_rename word.now }
{
    match word.whole() {
        Some(text) => text.as_bytes() == b"rename".as_slice(),
        None => false,
    }
}

// `rename SOURCE TARGET`, after SOURCE
fn path_to(alloc: Global, source: ScriptText, words: &[Word]) -> Result<Edit, Halt>
    ensures { Returns (λ what. what) result (path_to source words.now) }
{
    let [word, others @ ..] = words else {
        return Err(bad_words(alloc, b"path"));
    };
    let target = text_before(alloc, others, word)?;
    only(alloc, Edit::PathRename { source, target }, others)
}

// The same after `rename`.
fn path_from(alloc: Global, words: &[Word]) -> Result<Edit, Halt>
    ensures { Returns (λ what. what) result (path_from words.now) }
{
    let [word, others @ ..] = words else {
        return Err(bad_words(alloc, b"path"));
    };
    let source = text_before(alloc, others, word)?;
    path_to(alloc, source, others)
}

// `rename SOURCE TARGET`
#[tactic(auto, unfolding(crate::specs::Edits::path_words))]
fn path(alloc: Global, words: &[Word]) -> Result<Edit, Halt>
    ensures { Returns (λ what. what) result (path_words words.now) }
{
    let [word, others @ ..] = words else {
        return Err(bad_words(alloc, b"path"));
    };
    if !says_rename(word) {
        return Err(at_fault(alloc, word));
    }
    path_from(alloc, others)
}

// The word after `paths`.
fn way(word: &Word) -> Option<Way>
    ensures { result ≡ option_and_then way_of (whole_in word.now) }
{
    Way::of(word.whole()?.as_bytes())
}

// What is after `sub`, or after `sup`.
fn paths_by(alloc: Global, how: Way, words: &[Word]) -> Result<Edit, Halt>
    ensures { Returns (λ what. what) result (paths_by how words.now) }
{
    let [word, others @ ..] = words else {
        return Err(bad_words(alloc, b"paths"));
    };
    let folder = text_before(alloc, others, word)?;
    let what = match how {
        Way::Sub => Edit::PathsSub(folder),
        Way::Sup => Edit::PathsSup(folder),
    };
    only(alloc, what, others)
}

// `sub DIR`, `sup DIR`
#[tactic(auto, unfolding(crate::specs::Edits::paths_words))]
fn paths(alloc: Global, words: &[Word]) -> Result<Edit, Halt>
    ensures { Returns (λ what. what) result (paths_words words.now) }
{
    let [word, others @ ..] = words else {
        return Err(bad_words(alloc, b"paths"));
    };
    let how = or_at_fault(alloc, word, way(word))?;
    paths_by(alloc, how, others)
}

impl EditWord {
    /// The word of an edit that these bytes are.
    #[tactic(auto, unfolding(crate::specs::Edits::word_of))]
    pub fn of(word: &str) -> Option<EditWord>
        ensures { result ≡ word_of word.now }
    {
        match word {
            "squash" => Some(EditWord::Squash),
            "delete" => Some(EditWord::Delete),
            "split" => Some(EditWord::Split),
            "reorder" => Some(EditWord::Reorder),
            "reparent" => Some(EditWord::Reparent),
            "merge" => Some(EditWord::Merge),
            "unmerge" => Some(EditWord::Unmerge),
            "add" => Some(EditWord::Add),
            "remove" => Some(EditWord::Remove),
            "coalesce" => Some(EditWord::Coalesce),
            "simplify" => Some(EditWord::Simplify),
            "path" => Some(EditWord::Path),
            "paths" => Some(EditWord::Paths),
            "timeoffset" => Some(EditWord::TimeOffset),
            "setfield" => Some(EditWord::SetField),
            "tagify" => Some(EditWord::Tagify),
            _ => None,
        }
    }

    /// The word as it is written.
    pub fn text(self) -> &'static [u8]
        ensures { result.now ≡ edit_word self }
    {
        match self {
            EditWord::Squash => b"squash",
            EditWord::Delete => b"delete",
            EditWord::Split => b"split",
            EditWord::Reorder => b"reorder",
            EditWord::Reparent => b"reparent",
            EditWord::Merge => b"merge",
            EditWord::Unmerge => b"unmerge",
            EditWord::Add => b"add",
            EditWord::Remove => b"remove",
            EditWord::Coalesce => b"coalesce",
            EditWord::Simplify => b"simplify",
            EditWord::Path => b"path",
            EditWord::Paths => b"paths",
            EditWord::TimeOffset => b"timeoffset",
            EditWord::SetField => b"setfield",
            EditWord::Tagify => b"tagify",
        }
    }

    /// Whether a selection has to be before it.
    pub fn needs_selection(self) -> bool
        ensures { result ≡ needs_selection self }
    {
        match self {
            EditWord::Squash => true,
            EditWord::Delete => true,
            EditWord::Split => true,
            EditWord::Reorder => true,
            EditWord::Reparent => true,
            EditWord::Merge => true,
            EditWord::Unmerge => true,
            EditWord::Add => true,
            EditWord::Remove => true,
            EditWord::Coalesce => false,
            EditWord::Simplify => false,
            EditWord::Path => false,
            EditWord::Paths => false,
            EditWord::TimeOffset => true,
            EditWord::SetField => true,
            EditWord::Tagify => false,
        }
    }

    /// Whether a selection may be before it.
    pub fn may_select(self) -> bool
        ensures { result ≡ may_select self }
    {
        !matches!(self, EditWord::Path | EditWord::Paths)
    }

    /// The edit that the words after it say.
    pub fn said(self, alloc: Global, words: &[Word]) -> Result<Edit, Halt>
        ensures { Returns (λ what. what) result (said_of self words.now) }
    {
        match self {
            EditWord::Squash => squash(alloc, words),
            EditWord::Delete => delete(alloc, words),
            EditWord::Split => split(alloc, words),
            EditWord::Reorder => only(alloc, Edit::Reorder, words),
            EditWord::Reparent => reparent(alloc, words),
            EditWord::Merge => only(alloc, Edit::Merge, words),
            EditWord::Unmerge => only(alloc, Edit::Unmerge, words),
            EditWord::Add => add(alloc, words),
            EditWord::Remove => remove(alloc, words),
            EditWord::Coalesce => coalesce(alloc, words),
            EditWord::Simplify => only(alloc, Edit::Simplify, words),
            EditWord::Path => path(alloc, words),
            EditWord::Paths => paths(alloc, words),
            EditWord::TimeOffset => time_offset(alloc, words),
            EditWord::SetField => set_field(alloc, words),
            EditWord::Tagify => only(alloc, Edit::Tagify, words),
        }
    }
}
