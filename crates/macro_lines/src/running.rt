//! A macro that is run: its lines, each made when it is taken.
ghost use Rattle.std.specs.Prelude.{◌≡◌, [], drop, IfOk, IsOk};
ghost use Rattle.plain_model.specs.Paths.{Bytes};
ghost use Rattle.plain_model.specs.Faults.{Returns};
ghost use Rattle.script_lines.specs.Scripts.{trimmed};
ghost use Rattle.script_reader.specs.Selecting.{with_selection};
ghost use Rattle.macro_lines.specs.Left.{made_lines};
ghost use Rattle.macro_lines.specs.Macros.{expanded, looked_for, run_of};
ghost use Rattle.macro_lines.specs.Places.{filled};
ghost use Rattle.macro_lines.specs.Put.{IsKept};
ghost use Rattle.macro_lines.specs.Taken.{IsTaken};

use crate::line::Line;
use crate::places::filled;
use plain_model::{Copied, Halt, NoMemory, Shared};
use script_lines::{LineList, ScriptText, is_nothing, trim_back};
use script_reader::{Call, WrittenSelection, wants_selection};
use std::alloc::Global;
use std::marker::Model;

/// A line that is taken.
#[derive(Drop)]
pub enum CalledLine {
    /// The line.
    Whole(ScriptText),
    /// One that has more bytes than a line may have, and so is refused.
    TooLong,
}

/// A macro that is run. It is seen as the lines that are still to come.
#[derive(Drop)]
pub struct Running {
    selection: Option<ScriptText>,
    words: LineList,
    body: Shared<LineList>,
    next: usize,
}

impl Model for Running {
    ghost use Rattle.std.specs.Prelude.{List, ℕ, drop, IsOk};
    ghost use Rattle.macro_lines.specs.Left.{made_lines};
    ghost use Rattle.macro_lines.specs.Macros.{expanded};

    ghost Value = { List (List ℕ) };

    ghost view = { λ r. made_lines (expanded r.selection r.words (drop r.next r.body)) };

    ghost invariant = { λ r. IsOk (expanded r.selection r.words (drop r.next r.body)) };
}

// A line with the selection of its `do` before it, if it wants one.
fn with_selection(
    alloc: Global,
    selection: &Option<ScriptText>,
    line: &str,
) -> Result<ScriptText, NoMemory>
    ensures { IfOk result (λ text. text ≡ with_selection selection.now line.now) }
{
    let mut text = ScriptText::empty(alloc);
    if let Some(selection) = selection {
        if wants_selection(line) {
            text.push_str(selection.as_str())?;
            text.push_str(" ")?;
        }
    }
    text.push_str(line)?;
    Ok(text)
}

// What is run of the text that counts of a line.
fn run_line(
    alloc: Global,
    selection: &Option<ScriptText>,
    text: &str,
) -> Result<Option<CalledLine>, NoMemory>
    ensures { IfOk result (λ made. IsTaken made (run_of selection.now text.now) []) }
{
    if is_nothing(text) {
        return Ok(None);
    }
    let text = with_selection(alloc, selection, text)?;
    Ok(Some(CalledLine::Whole(text)))
}

// What is run of a line that was put together.
fn called_line(
    alloc: Global,
    selection: &Option<ScriptText>,
    line: &Line,
) -> Result<Option<CalledLine>, NoMemory>
    ensures { IfOk result (λ made. (put : Bytes) → IsKept line.now put →
        IsTaken made (run_of selection.now (trimmed put)) []) }
{
    match line {
        Line::Whole(text) => run_line(alloc, selection, trim_back(text.as_str())),
        Line::Full(text) => run_line(alloc, selection, trim_back(text.as_str())),
        Line::TooLong => Ok(Some(CalledLine::TooLong)),
        Line::Comment => Ok(None),
    }
}

// What is run of a line of a body, none of whose words is missing.
fn made_line(
    alloc: Global,
    selection: &Option<ScriptText>,
    words: &[ScriptText],
    text: &str,
) -> Result<Option<CalledLine>, NoMemory>
    requires { IsOk (filled words.now text.now) }
    ensures { IfOk result (λ made. IfOk (filled words.now text.now)
        (λ line. IsTaken made (run_of selection.now (trimmed line)) [])) }
{
    match filled(alloc, words, text, Line::new(alloc)) {
        Ok(line) => called_line(alloc, selection, &line),
        Err(Halt::Memory) => Err(NoMemory),
        Err(Halt::Refused(_)) => unreachable!(),
    }
}

// The first line of a body from a place on that is run, and the place after it.
fn next_line(
    alloc: Global,
    selection: &Option<ScriptText>,
    words: &[ScriptText],
    body: &[ScriptText],
    place: usize,
) -> Result<(Option<CalledLine>, usize), NoMemory>
    requires { IsOk (expanded selection.now words.now (drop place body.now)) }
    ensures taken { IfOk result (λ found. IsTaken found.0
        (made_lines (expanded selection.now words.now (drop place body.now)))
        (made_lines (expanded selection.now words.now (drop found.1 body.now)))) }
    ensures left { IfOk result
        (λ found. IsOk (expanded selection.now words.now (drop found.1 body.now))) }
{
    let mut next = place;
    while let Some(text) = body.get(next) {
        next += 1;
        let taken = made_line(alloc, selection, words, text.as_str())?;
        if taken.is_some() {
            return Ok((taken, next));
        }
    }
    Ok((None, next))
}

// Whether each place in these lines has its word, or the refusal of the first that has none.
fn look_for_words(alloc: Global, words: &[ScriptText], body: &[ScriptText]) -> Result<(), Halt>
    ensures { Returns (λ done. done) result (looked_for words.now body.now) }
{
    for text in body {
        let _line = filled(alloc, words, text.as_str(), Line::TooLong)?;
    }
    Ok(())
}

// The text of a selection.
fn selection_text(
    alloc: Global,
    selection: &Option<WrittenSelection>,
) -> Result<Option<ScriptText>, NoMemory>
    ensures { IfOk result (λ text. text ≡ selection.now) }
{
    match selection {
        Some(selection) => Ok(Some(ScriptText::of(alloc, selection.as_str())?)),
        None => Ok(None),
    }
}

impl Running {
    /// The lines of a body, with the words of a `do` in their places. Refused where a word is missing, with the first of them.
    pub fn of(alloc: Global, call: &Call, body: &Shared<LineList>) -> Result<Running, Halt>
        ensures { Returns (λ lines. lines) result
            (expanded call.now.selection call.now.words body.now) }
    {
        look_for_words(alloc, call.words.as_slice(), body.as_slice())?;
        let selection = selection_text(alloc, &call.selection)?;
        let words = call.words.copied(alloc)?;
        Ok(Running {
            selection,
            words,
            body: body.share()?,
            next: 0,
        })
    }

    /// Takes the first line that is still to come.
    pub fn take(&mut self, alloc: Global) -> Result<Option<CalledLine>, NoMemory>
        ensures { IfOk result (λ taken. IsTaken taken self.old self.new) }
    {
        let (taken, next) = next_line(
            alloc,
            &self.selection,
            self.words.as_slice(),
            self.body.as_slice(),
            self.next,
        )?;
        self.next = next;
        Ok(taken)
    }
}
