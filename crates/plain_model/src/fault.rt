//! Faults: why a command is refused, and what is printed of it.
ghost use Rattle.std.specs.Prelude.{◌≡◌, ◌++◌, codes, IfOk};
ghost use Rattle.plain_model.specs.Faults.{
  fault_text,
  why_text,
  which_text,
  text_field,
  number_field,
  mark_field,
  refusal,
};

use crate::list::{Items, NoMemory, Text};
use crate::mark::Mark;
use std::alloc::Global;

/// What is wrong with a line of a stream.
#[derive(Clone, Copy, Debug, PartialEq, Eq)]
pub enum Why {
    UnknownLine,
    BadMark,
    RepeatedMark,
    UnknownMark,
    UnknownRef,
    BadName,
    BadPath,
    BadMode,
    BadPerson,
    BadWhen,
    BadData,
    Truncated,
    MissingLine,
    MissingSource,
    LeftOut,
}

/// Which limit would be passed.
#[derive(Clone, Copy, Debug, PartialEq, Eq)]
pub enum Which {
    Commands,
    LineBytes,
    Events,
    Operations,
    Parents,
    Aliases,
    Paths,
    PathBytes,
    NameBytes,
}

/// Why a command is refused, with what there is to say of it. Lines and columns count from 1, events by
/// their places in the list from 1, operations by their places in the commit from 1. (own)
#[derive(Drop)]
pub enum Fault {
    BadStream { line: u64, why: Why },
    Absent { name: Text },
    TooLong { name: Text, limit: u64 },
    UnknownCommand { word: Text },
    BadWords { word: Text },
    UnknownMacro { name: Text },
    MacroDepth { depth: u64 },
    ExpansionLimit { which: Which, number: u64 },
    UnclosedDefine { line: u64 },
    BadText { line: u64 },
    NoRepo,
    NoSuchRepo { name: Text },
    RepoTaken { name: Text },
    TooManyRepos { limit: u64 },
    BadSelection { column: u64 },
    NoSuchMark { mark: u64 },
    NoSuchEvent { number: u64 },
    NoSuchName { name: Text },
    ReversedRange { first: u64, last: u64 },
    BadPattern { pattern: Text },
    PatternTooBig { pattern: Text },
    BadMoment { text: Text },
    WrongCount { found: u64 },
    NotACommit { event: u64 },
    PushbackRoot { mark: Mark },
    PushbackFork { mark: Mark },
    MissingSource { mark: Mark, op: u64 },
    Cycle { mark: Mark },
    NotLinear { event: u64 },
    BadIndex { index: u64 },
    NoSuchPath { path: Text },
    NameTaken { name: Text },
    Limit { which: Which, number: u64 },
    MarksSpent,
    NameAssigned { name: Text },
    PathCollision { mark: Mark, op: u64, path: Text },
    StillConnected { mark: Mark },
    ChildCount { mark: Mark, found: u64 },
    NotAdjacent { mark: Mark },
    MomentRange { event: u64 },
    BadMessage { line: u64 },
    NoSuchTarget { line: u64 },
    CheckText { line: u64 },
    BadAuthors { line: u64 },
}

/// Why a call that meets nothing outside has no value.
#[derive(Drop)]
pub enum Halt {
    Refused(Fault),
    Memory,
}

impl From<NoMemory> for Halt {
    ghost use Rattle.plain_model.specs.declared.fault.Halt.TheVariants.{Memory};

    ghost from_gives = { λ _ halt. halt ≡ Memory };

    fn from(_error: NoMemory) -> Halt {
        Halt::Memory
    }
}

impl Why {
    fn name(self) -> &'static [u8]
        ensures { result.now ≡ why_text self }
    {
        match self {
            Why::UnknownLine => b"UnknownLine",
            Why::BadMark => b"BadMark",
            Why::RepeatedMark => b"RepeatedMark",
            Why::UnknownMark => b"UnknownMark",
            Why::UnknownRef => b"UnknownRef",
            Why::BadName => b"BadName",
            Why::BadPath => b"BadPath",
            Why::BadMode => b"BadMode",
            Why::BadPerson => b"BadPerson",
            Why::BadWhen => b"BadWhen",
            Why::BadData => b"BadData",
            Why::Truncated => b"Truncated",
            Why::MissingLine => b"MissingLine",
            Why::MissingSource => b"MissingSource",
            Why::LeftOut => b"LeftOut",
        }
    }
}

impl Which {
    fn name(self) -> &'static [u8]
        ensures { result.now ≡ which_text self }
    {
        match self {
            Which::Commands => b"Commands",
            Which::LineBytes => b"LineBytes",
            Which::Events => b"Events",
            Which::Operations => b"Operations",
            Which::Parents => b"Parents",
            Which::Aliases => b"Aliases",
            Which::Paths => b"Paths",
            Which::PathBytes => b"PathBytes",
            Which::NameBytes => b"NameBytes",
        }
    }
}

// The number and name of a fault without fields.
fn bare(alloc: Global, head: &[u8]) -> Result<Text, NoMemory>
    ensures { IfOk result (λ text. text ≡ head.now) }
{
    Items::of(alloc, head)
}

fn push_field(text: &mut Text, field: &[u8], value: &[u8]) -> Result<(), NoMemory>
    ensures { IfOk result (λ _. text.new ≡ text.old ++ text_field field.now value.now) }
{
    text.push(b' ')?;
    text.push_all(field)?;
    text.push(b'=')?;
    text.push_all(value)
}

fn push_number_field(text: &mut Text, field: &[u8], value: u64) -> Result<(), NoMemory>
    ensures { IfOk result (λ _. text.new ≡ text.old ++ number_field field.now value) }
{
    text.push(b' ')?;
    text.push_all(field)?;
    text.push(b'=')?;
    text.push_number(value)
}

fn with_text(alloc: Global, head: &[u8], field: &[u8], value: &Text) -> Result<Text, NoMemory>
    ensures { IfOk result (λ text. text ≡ head.now ++ text_field field.now value.now) }
{
    let mut text = bare(alloc, head)?;
    push_field(&mut text, field, value.as_slice())?;
    Ok(text)
}

fn with_number(alloc: Global, head: &[u8], field: &[u8], value: u64) -> Result<Text, NoMemory>
    ensures { IfOk result (λ text. text ≡ head.now ++ number_field field.now value) }
{
    let mut text = bare(alloc, head)?;
    push_number_field(&mut text, field, value)?;
    Ok(text)
}

fn with_mark(alloc: Global, head: &[u8], mark: u64) -> Result<Text, NoMemory>
    ensures { IfOk result (λ text. text ≡ head.now ++ mark_field mark) }
{
    let mut text = bare(alloc, head)?;
    text.push_all(b" mark=:")?;
    text.push_number(mark)?;
    Ok(text)
}

fn with_numbers(alloc: Global, head: &[u8], first: u64, last: u64) -> Result<Text, NoMemory>
    ensures { IfOk result
        (λ text. text ≡ head.now ++ number_field (codes "first") first
        ++ number_field (codes "last") last) }
{
    let mut text = with_number(alloc, head, b"first", first)?;
    push_number_field(&mut text, b"last", last)?;
    Ok(text)
}

fn with_limit(alloc: Global, head: &[u8], which: Which, number: u64) -> Result<Text, NoMemory>
    ensures { IfOk result
        (λ text. text ≡ head.now ++ text_field (codes "which") (which_text which)
        ++ number_field (codes "number") number) }
{
    let mut text = bare(alloc, head)?;
    push_field(&mut text, b"which", which.name())?;
    push_number_field(&mut text, b"number", number)?;
    Ok(text)
}

fn with_defect(alloc: Global, head: &[u8], line: u64, why: Why) -> Result<Text, NoMemory>
    ensures { IfOk result
        (λ text. text ≡ head.now ++ number_field (codes "line") line
        ++ text_field (codes "why") (why_text why)) }
{
    let mut text = with_number(alloc, head, b"line", line)?;
    push_field(&mut text, b"why", why.name())?;
    Ok(text)
}

fn with_name_and_limit(
    alloc: Global,
    head: &[u8],
    name: &Text,
    limit: u64,
) -> Result<Text, NoMemory>
    ensures { IfOk result
        (λ text. text ≡ head.now ++ text_field (codes "name") name.now
        ++ number_field (codes "limit") limit) }
{
    let mut text = with_text(alloc, head, b"name", name)?;
    push_number_field(&mut text, b"limit", limit)?;
    Ok(text)
}

fn with_mark_and(
    alloc: Global,
    head: &[u8],
    mark: u64,
    field: &[u8],
    value: u64,
) -> Result<Text, NoMemory>
    ensures { IfOk result
        (λ text. text ≡ head.now ++ mark_field mark ++ number_field field.now value) }
{
    let mut text = with_mark(alloc, head, mark)?;
    push_number_field(&mut text, field, value)?;
    Ok(text)
}

fn with_collision(
    alloc: Global,
    head: &[u8],
    mark: u64,
    op: u64,
    path: &Text,
) -> Result<Text, NoMemory>
    ensures { IfOk result
        (λ text. text ≡ head.now ++ mark_field mark ++ number_field (codes "op") op
        ++ text_field (codes "path") path.now) }
{
    let mut text = with_mark_and(alloc, head, mark, b"op", op)?;
    push_field(&mut text, b"path", path.as_slice())?;
    Ok(text)
}

impl Fault {
    /// What is printed of the fault: its number and name, and each field with its name.
    pub fn text(&self, alloc: Global) -> Result<Text, NoMemory>
        ensures { IfOk result (λ text. text ≡ fault_text self.now) }
    {
        match self {
            Fault::BadStream { line, why } => with_defect(alloc, b"10 BadStream", *line, *why),
            Fault::Absent { name } => with_text(alloc, b"11 Absent", b"name", name),
            Fault::TooLong { name, limit } => {
                with_name_and_limit(alloc, b"12 TooLong", name, *limit)
            }
            Fault::UnknownCommand { word } => with_text(alloc, b"20 UnknownCommand", b"word", word),
            Fault::BadWords { word } => with_text(alloc, b"21 BadWords", b"word", word),
            Fault::UnknownMacro { name } => with_text(alloc, b"22 UnknownMacro", b"name", name),
            Fault::MacroDepth { depth } => with_number(alloc, b"23 MacroDepth", b"depth", *depth),
            Fault::ExpansionLimit { which, number } => {
                with_limit(alloc, b"24 ExpansionLimit", *which, *number)
            }
            Fault::UnclosedDefine { line } => {
                with_number(alloc, b"25 UnclosedDefine", b"line", *line)
            }
            Fault::BadText { line } => with_number(alloc, b"26 BadText", b"line", *line),
            Fault::NoRepo => bare(alloc, b"30 NoRepo"),
            Fault::NoSuchRepo { name } => with_text(alloc, b"31 NoSuchRepo", b"name", name),
            Fault::RepoTaken { name } => with_text(alloc, b"32 RepoTaken", b"name", name),
            Fault::TooManyRepos { limit } => {
                with_number(alloc, b"33 TooManyRepos", b"limit", *limit)
            }
            Fault::BadSelection { column } => {
                with_number(alloc, b"40 BadSelection", b"column", *column)
            }
            Fault::NoSuchMark { mark } => with_mark(alloc, b"41 NoSuchMark", *mark),
            Fault::NoSuchEvent { number } => {
                with_number(alloc, b"42 NoSuchEvent", b"number", *number)
            }
            Fault::NoSuchName { name } => with_text(alloc, b"43 NoSuchName", b"name", name),
            Fault::ReversedRange { first, last } => {
                with_numbers(alloc, b"44 ReversedRange", *first, *last)
            }
            Fault::BadPattern { pattern } => with_text(
                alloc,
                b"45 BadPattern",
                b"pattern",
                pattern,
            ),
            Fault::PatternTooBig { pattern } => {
                with_text(alloc, b"46 PatternTooBig", b"pattern", pattern)
            }
            Fault::BadMoment { text } => with_text(alloc, b"47 BadMoment", b"text", text),
            Fault::WrongCount { found } => with_number(alloc, b"50 WrongCount", b"found", *found),
            Fault::NotACommit { event } => with_number(alloc, b"51 NotACommit", b"event", *event),
            Fault::PushbackRoot { mark } => with_mark(alloc, b"52 PushbackRoot", mark.number()),
            Fault::PushbackFork { mark } => with_mark(alloc, b"53 PushbackFork", mark.number()),
            Fault::MissingSource { mark, op } => {
                with_mark_and(alloc, b"54 MissingSource", mark.number(), b"op", *op)
            }
            Fault::Cycle { mark } => with_mark(alloc, b"55 Cycle", mark.number()),
            Fault::NotLinear { event } => with_number(alloc, b"56 NotLinear", b"event", *event),
            Fault::BadIndex { index } => with_number(alloc, b"57 BadIndex", b"index", *index),
            Fault::NoSuchPath { path } => with_text(alloc, b"58 NoSuchPath", b"path", path),
            Fault::NameTaken { name } => with_text(alloc, b"59 NameTaken", b"name", name),
            Fault::Limit { which, number } => with_limit(alloc, b"60 Limit", *which, *number),
            Fault::MarksSpent => bare(alloc, b"61 MarksSpent"),
            Fault::NameAssigned { name } => with_text(alloc, b"62 NameAssigned", b"name", name),
            Fault::PathCollision { mark, op, path } => {
                with_collision(alloc, b"63 PathCollision", mark.number(), *op, path)
            }
            Fault::StillConnected { mark } => with_mark(alloc, b"64 StillConnected", mark.number()),
            Fault::ChildCount { mark, found } => {
                with_mark_and(alloc, b"65 ChildCount", mark.number(), b"found", *found)
            }
            Fault::NotAdjacent { mark } => with_mark(alloc, b"66 NotAdjacent", mark.number()),
            Fault::MomentRange { event } => with_number(alloc, b"67 MomentRange", b"event", *event),
            Fault::BadMessage { line } => with_number(alloc, b"70 BadMessage", b"line", *line),
            Fault::NoSuchTarget { line } => with_number(alloc, b"71 NoSuchTarget", b"line", *line),
            Fault::CheckText { line } => with_number(alloc, b"72 CheckText", b"line", *line),
            Fault::BadAuthors { line } => with_number(alloc, b"73 BadAuthors", b"line", *line),
        }
    }

    /// The line that is printed where the command of a script's line is refused.
    #[tactic(auto, unfolding(crate::specs::Faults::refusal))]
    pub fn refusal(&self, alloc: Global, line: u64) -> Result<Text, NoMemory>
        ensures { IfOk result (λ text. text ≡ refusal line self.now) }
    {
        let mut text = Items::of(alloc, b"surgeon: line ")?;
        text.push_number(line)?;
        text.push_all(b": refused ")?;
        let fault = self.text(alloc)?;
        text.push_all(fault.as_slice())?;
        text.push(b'\n')?;
        Ok(text)
    }
}
