//! What a line orders: a command, or that a macro is run.
ghost use Rattle.plain_model.specs.Faults.{Returns};
ghost use Rattle.plain_model.specs.declared.fault.Fault.TheVariants.{UnknownCommand};
ghost use Rattle.script_lines.specs.Answering.{Refuses};
ghost use Rattle.script_reader.specs.Commands.{order_after, order_of};

use crate::edit::Edit;
use crate::form::form;
use crate::keyword::Keyword;
use crate::selecting::{WrittenSelection, cut_front, is_superfluous};
use plain_model::{Fault, Halt, Items, NoMemory, Text};
use script_lines::{
    LineList, RepoName, ScriptText, bad_words, cut_head, is_long, too_long, words_in,
};
use std::alloc::Global;

/// A command as it was read: its words fit, and nothing was looked up yet. (reposurgeon manual, the
/// section of each command word)
#[derive(Drop)]
pub enum Command {
    /// Loads the history of a file, as a repository of that name.
    Read {
        file: ScriptText,
        name: RepoName,
    },
    /// Writes the chosen history into a file, or prints it.
    Write {
        to: Option<ScriptText>,
    },
    /// Chooses the repository of that name.
    Choose {
        name: Text,
    },
    /// Prints the names of the repositories: the word `choose` alone.
    ShowRepos,
    /// Forgets the repository of that name.
    Drop {
        name: Text,
    },
    /// Forgets the chosen repository: the word `drop` alone.
    DropChosen,
    /// Gives the marks anew, in the list's order.
    Renumber,
    /// Prints a text of the selected events, or of all where none is written.
    Show {
        selection: Option<WrittenSelection>,
        what: Listing,
        to: Option<ScriptText>,
    },
    /// Keeps the selected events under a name.
    Assign {
        selection: WrittenSelection,
        name: Text,
    },
    /// Edits the chosen history, at the selected events, or at all where none is written.
    Edit {
        selection: Option<WrittenSelection>,
        what: Edit,
    },
    /// Removes the paths that a word matches from the whole past of the chosen history.
    Expunge {
        words: LineList,
    },
    /// Edits the chosen history as the lines of a file say.
    EditBy {
        what: FileEdit,
        file: ScriptText,
    },
    /// Prints a line for each branch and tag.
    Names {
        to: Option<ScriptText>,
    },
    /// Prints a line with the counts of the events.
    Summary {
        to: Option<ScriptText>,
    },
    /// Loads a history of so many commits that the number `start` determines.
    Sample {
        count: u64,
        start: u64,
    },
    /// Hangs the history of the repository of that name on the selected commit, and forgets that repository. Where `prune` is set,
    /// its commits keep their files.
    Graft {
        selection: WrittenSelection,
        name: ScriptText,
        prune: bool,
    },
    /// Makes one repository of those of these names, none of which is there twice. Where `prune` is set, all commits keep their
    /// files.
    Unite {
        names: LineList,
        prune: bool,
    },
    /// Makes two repositories of the chosen one, by the link that is selected.
    Divide {
        selection: WrittenSelection,
    },
}

/// What a file says of events.
#[derive(Clone, Copy)]
pub enum FileEdit {
    /// Messages, whose people, dates and comments are put on their events.
    Messages,
    /// Names and emails for the people who have an email.
    Authors,
}

/// What is printed of events.
#[derive(Clone, Copy)]
pub enum Listing {
    /// A line for each commit and tag.
    List,
    /// A line for each event.
    Index,
    /// The stamp of each commit.
    Stamp,
    /// The numbers of the events.
    Resolve,
    /// The files of each commit.
    Manifest,
    /// A message for each commit and tag, as a box that can be edited.
    Messages,
}

/// A macro that is to be run, the words for its places, and the selection for those of its lines that take one.
#[derive(Drop)]
pub struct Call {
    pub selection: Option<WrittenSelection>,
    pub name: ScriptText,
    pub words: LineList,
}

/// What a line of a script orders.
#[derive(Drop)]
pub enum Order {
    /// A command of a session.
    Step(Command),
    /// The lines of a macro are run.
    Do(Call),
}

// The refusal of a command word.
fn unknown(alloc: Global, word: &str) -> Halt
    ensures { Refuses result (UnknownCommand word.now) }
{
    match Items::of(alloc, word.as_bytes()) {
        Ok(word) => Halt::Refused(Fault::UnknownCommand { word }),
        Err(NoMemory) => Halt::Memory,
    }
}

// The order that is after a line's selection.
fn order_after(
    alloc: Global,
    selection: Option<WrittenSelection>,
    rest: &str,
) -> Result<Order, Halt>
    ensures { Returns (λ order. order) result
        (order_after (record { selection = selection; rest = rest.now })) }
{
    let (head, after) = cut_head(rest);
    match Keyword::of(head) {
        Some(keyword) if is_superfluous(&selection, keyword) => {
            Err(bad_words(alloc, head.as_bytes()))
        }
        Some(keyword) => {
            let words = words_in(alloc, after)?;
            form(alloc, selection, keyword, words.as_slice())
        }
        None => Err(unknown(alloc, head)),
    }
}

impl Order {
    /// Reads a line without blanks and CR at its ends. Refused where it is too long, where it begins with neither a letter nor a
    /// selection, with its command word where there is no such command, else with its first word that doesn't fit.
    #[tactic(auto, unfolding(crate::specs::Commands::order_of))]
    pub fn read(alloc: Global, line: &str) -> Result<Order, Halt>
        ensures { Returns (λ order. order) result (order_of line.now) }
    {
        if is_long(line) {
            return Err(Halt::Refused(too_long()));
        }
        match cut_front(alloc, line) {
            Ok(front) => order_after(alloc, front.selection, front.rest),
            Err(halt) => Err(halt),
        }
    }
}
