//! The forms of the commands: what may be after each command word.
ghost use Rattle.std.specs.Prelude.{◌≡◌, IfOk};
ghost use Rattle.std.specs.Option.{option_copied};
ghost use Rattle.plain_model.specs.Faults.{Returns};
ghost use Rattle.script_lines.specs.Redirections.{redirected};
ghost use Rattle.script_lines.specs.Texts.{name_in, or_at_fault, whole_in};
ghost use Rattle.script_reader.specs.Commands.{
  assign_form,
  authors_form,
  authors_from,
  choose_form,
  do_form,
  drop_form,
  divide_form,
  edit_form,
  ends_names,
  expunge_form,
  form_of,
  graft_form,
  if_given,
  if_prune,
  land_form,
  last_name,
  names_form,
  plain_form,
  prune_within,
  read_form,
  read_of,
  renumber_form,
  sample_form,
  sample_start,
  says_read,
  show_form,
  steps,
  summary_form,
  unite_form,
  united_with,
  write_form,
};
ghost use Rattle.script_reader.specs.Forms.{input_in, name_within, output_in};
ghost use Rattle.script_reader.specs.Numbers.{said_between};

use crate::command::{Call, Command, FileEdit, Listing, Order};
use crate::edit::EditWord;
use crate::keyword::{Keyword, PlainWord};
use crate::number::{MAX_START, number_between};
use crate::selecting::WrittenSelection;
use byte_sets::ByteSet;
use plain_model::{Copied, Halt, Items, MAX_SAMPLE_COMMITS, NoMemory, Text};
use script_lines::{
    Direction, RepoName, ScriptText, Word, at_fault, bad_words, is_given_name, name_in,
    or_at_fault, redirected, repo_name, said_before, text_before, texts_in,
};
use std::alloc::Global;

// The name of a repository that a last word is.
fn name_of(alloc: Global, word: &Word) -> Result<Text, Halt>
    ensures { Returns (λ name. name) result (or_at_fault word.now (name_in word.now)) }
{
    match name_in(word) {
        Some(text) => Ok(Items::of(alloc, text.as_bytes())?),
        None => Err(at_fault(alloc, word)),
    }
}

// `[>FILE]`
fn output(alloc: Global, words: &[Word]) -> Result<Option<ScriptText>, Halt>
    ensures { Returns (λ to. to) result (output_in words.now) }
{
    match words {
        [] => Ok(None),
        [word] => match redirected(Direction::Output, word) {
            Some(file) => Ok(Some(ScriptText::of(alloc, file)?)),
            None => Err(at_fault(alloc, word)),
        },
        [word, ..] => Err(at_fault(alloc, word)),
    }
}

// `<FILE`, of a command word
fn input(alloc: Global, head: &[u8], words: &[Word]) -> Result<ScriptText, Halt>
    ensures { Returns (λ file. file) result (input_in head.now words.now) }
{
    match words {
        [] => Err(bad_words(alloc, head)),
        [word] => match redirected(Direction::Input, word) {
            Some(file) => Ok(ScriptText::of(alloc, file)?),
            None => Err(at_fault(alloc, word)),
        },
        [word, ..] => Err(at_fault(alloc, word)),
    }
}

// `[NAME]`
fn name_within(alloc: Global, words: &[Word]) -> Result<Option<Text>, Halt>
    ensures { Returns (λ name. name) result (name_within words.now) }
{
    match words {
        [] => Ok(None),
        [word] => Ok(Some(name_of(alloc, word)?)),
        [_, next, ..] => Err(at_fault(alloc, next)),
    }
}

// The command to read a file, if one is named and gives a repository's name.
fn read_of(alloc: Global, file: Option<&str>) -> Result<Option<Command>, NoMemory>
    ensures { IfOk result (λ command. command ≡ read_of (option_copied file.entry)) }
{
    let Some(file) = file else {
        return Ok(None);
    };
    let Some(name) = RepoName::of(alloc, repo_name(file.as_bytes()))? else {
        return Ok(None);
    };
    let file = ScriptText::of(alloc, file)?;
    Ok(Some(Command::Read { file, name }))
}

// `read <FILE`, of the one word
fn read_one(alloc: Global, word: &Word) -> Result<Command, Halt>
    ensures { Returns (λ command. command) result
        (or_at_fault word.now (read_of (redirected Direction.Input word.now))) }
{
    let command = read_of(alloc, redirected(Direction::Input, word))?;
    or_at_fault(alloc, word, command)
}

// `read <FILE`
#[tactic(auto, unfolding(crate::specs::Commands::read_form))]
fn read(alloc: Global, words: &[Word]) -> Result<Command, Halt>
    ensures { Returns (λ command. command) result (read_form words.now) }
{
    match words {
        [] => Err(bad_words(alloc, b"read")),
        [word] => read_one(alloc, word),
        [word, ..] => Err(at_fault(alloc, word)),
    }
}

// `write [>FILE]`
#[tactic(auto, unfolding(crate::specs::Commands::write_form))]
fn write(alloc: Global, words: &[Word]) -> Result<Command, Halt>
    ensures { Returns (λ command. command) result (write_form words.now) }
{
    let to = output(alloc, words)?;
    Ok(Command::Write { to })
}

// `choose [NAME]`
#[tactic(auto, unfolding(crate::specs::Commands::choose_form))]
fn choose(alloc: Global, words: &[Word]) -> Result<Command, Halt>
    ensures { Returns (λ command. command) result (choose_form words.now) }
{
    match name_within(alloc, words)? {
        Some(name) => Ok(Command::Choose { name }),
        None => Ok(Command::ShowRepos),
    }
}

// `drop [NAME]`
#[tactic(auto, unfolding(crate::specs::Commands::drop_form))]
fn forget(alloc: Global, words: &[Word]) -> Result<Command, Halt>
    ensures { Returns (λ command. command) result (drop_form words.now) }
{
    match name_within(alloc, words)? {
        Some(name) => Ok(Command::Drop { name }),
        None => Ok(Command::DropChosen),
    }
}

// `renumber`
#[tactic(auto, unfolding(crate::specs::Commands::renumber_form))]
fn renumber(alloc: Global, words: &[Word]) -> Result<Command, Halt>
    ensures { Returns (λ command. command) result (renumber_form words.now) }
{
    match words {
        [] => Ok(Command::Renumber),
        [word, ..] => Err(at_fault(alloc, word)),
    }
}

// `[sel] list [>FILE]`, and so on
#[tactic(auto, unfolding(crate::specs::Commands::show_form))]
fn show(
    alloc: Global,
    selection: Option<WrittenSelection>,
    what: Listing,
    words: &[Word],
) -> Result<Command, Halt>
    ensures { Returns (λ command. command) result (show_form selection what words.now) }
{
    let to = output(alloc, words)?;
    Ok(Command::Show {
        selection,
        what,
        to,
    })
}

// The name that a word gives, if a script may give it.
fn given_name(alloc: Global, word: &Word) -> Result<Text, Halt>
    ensures { Returns (λ name. name) result
        (or_at_fault word.now (if_given (whole_in word.now))) }
{
    match word.whole() {
        Some(text) if is_given_name(text.as_bytes()) => Ok(Items::of(alloc, text.as_bytes())?),
        _ => Err(at_fault(alloc, word)),
    }
}

// NAME, the name of a selection
fn last_name(alloc: Global, words: &[Word]) -> Result<Text, Halt>
    ensures { Returns (λ name. name) result (last_name words.now) }
{
    match words {
        [] => Err(bad_words(alloc, b"assign")),
        [word] => given_name(alloc, word),
        [word, next, ..] => {
            let _ = given_name(alloc, word)?;
            Err(at_fault(alloc, next))
        }
    }
}

// `sel assign NAME`
fn assign(
    alloc: Global,
    selection: Option<WrittenSelection>,
    words: &[Word],
) -> Result<Command, Halt>
    ensures { Returns (λ command. command) result (assign_form selection words.now) }
{
    match selection {
        Some(selection) => {
            let name = last_name(alloc, words)?;
            Ok(Command::Assign { selection, name })
        }
        None => Err(bad_words(alloc, b"assign")),
    }
}

// `names [>FILE]`
#[tactic(auto, unfolding(crate::specs::Commands::names_form))]
fn names(alloc: Global, words: &[Word]) -> Result<Command, Halt>
    ensures { Returns (λ command. command) result (names_form words.now) }
{
    let to = output(alloc, words)?;
    Ok(Command::Names { to })
}

// `summary [>FILE]`
#[tactic(auto, unfolding(crate::specs::Commands::summary_form))]
fn summary(alloc: Global, words: &[Word]) -> Result<Command, Halt>
    ensures { Returns (λ command. command) result (summary_form words.now) }
{
    let to = output(alloc, words)?;
    Ok(Command::Summary { to })
}

// The number that a word says, in a range.
fn number_in(word: &Word, least: u64, most: u64) -> Option<u64>
    ensures { result ≡ said_between least most (whole_in word.now) }
{
    number_between(least, most, word.whole()?.as_bytes())
}

// `sample COUNT START`, after COUNT
fn sample_start(alloc: Global, count: u64, words: &[Word]) -> Result<Command, Halt>
    ensures { Returns (λ command. command) result (sample_start count words.now) }
{
    match words {
        [] => Err(bad_words(alloc, b"sample")),
        [word] => Ok(Command::Sample {
            count,
            start: or_at_fault(alloc, word, number_in(word, 0, MAX_START))?,
        }),
        [word, next, ..] => {
            let _ = or_at_fault(alloc, word, number_in(word, 0, MAX_START))?;
            Err(at_fault(alloc, next))
        }
    }
}

// `sample COUNT START`
#[tactic(auto, unfolding(crate::specs::Commands::sample_form))]
fn sample(alloc: Global, words: &[Word]) -> Result<Command, Halt>
    ensures { Returns (λ command. command) result (sample_form words.now) }
{
    match words {
        [] => Err(bad_words(alloc, b"sample")),
        [word, others @ ..] => {
            let count = or_at_fault(alloc, word, number_in(word, 1, MAX_SAMPLE_COMMITS))?;
            sample_start(alloc, count, others)
        }
    }
}

// `expunge WORD [WORD ..]`
#[tactic(auto, unfolding(crate::specs::Commands::expunge_form))]
fn expunge(alloc: Global, words: &[Word]) -> Result<Command, Halt>
    ensures { Returns (λ command. command) result (expunge_form words.now) }
{
    if words.is_empty() {
        return Err(bad_words(alloc, b"expunge"));
    }
    let words = texts_in(alloc, words)?;
    Ok(Command::Expunge { words })
}

// `msgin <FILE`
#[tactic(auto, unfolding(crate::specs::Commands::land_form))]
fn land(alloc: Global, words: &[Word]) -> Result<Command, Halt>
    ensures { Returns (λ command. command) result (land_form words.now) }
{
    let file = input(alloc, b"msgin", words)?;
    Ok(Command::EditBy {
        what: FileEdit::Messages,
        file,
    })
}

// Whether a word is `read`.
fn says_read(word: &Word) -> bool
    ensures { result ≡ says_read word.now }
{
    match word.whole() {
        Some(text) => text.as_bytes() == b"read".as_slice(),
        None => false,
    }
}

// `authors read <FILE`, after `read`
fn authors_from(alloc: Global, words: &[Word]) -> Result<Command, Halt>
    ensures { Returns (λ command. command) result (authors_from words.now) }
{
    let file = input(alloc, b"authors", words)?;
    Ok(Command::EditBy {
        what: FileEdit::Authors,
        file,
    })
}

// `authors read <FILE`
#[tactic(auto, unfolding(crate::specs::Commands::authors_form))]
fn authors(alloc: Global, words: &[Word]) -> Result<Command, Halt>
    ensures { Returns (λ command. command) result (authors_form words.now) }
{
    let [word, others @ ..] = words else {
        return Err(bad_words(alloc, b"authors"));
    };
    if !says_read(word) {
        return Err(at_fault(alloc, word));
    }
    authors_from(alloc, others)
}

/// The option of commands that take another repository in.
const PRUNE: &[u8] = b"--prune";

// Whether a word is `--prune`, or it doesn't fit.
fn prune_in(word: &Word) -> Option<bool>
    ensures { result ≡ if_prune (whole_in word.now) }
{
    if word.whole()?.as_bytes() == PRUNE {
        Some(true)
    } else {
        None
    }
}

// `[--prune]`
fn prune_within(alloc: Global, words: &[Word]) -> Result<bool, Halt>
    ensures { Returns (λ prune. prune) result (prune_within words.now) }
{
    match words {
        [] => Ok(false),
        [word] => or_at_fault(alloc, word, prune_in(word)),
        [word, next, ..] => {
            let _ = or_at_fault(alloc, word, prune_in(word))?;
            Err(at_fault(alloc, next))
        }
    }
}

// `sel graft NAME [--prune]`
fn graft(
    alloc: Global,
    selection: Option<WrittenSelection>,
    words: &[Word],
) -> Result<Command, Halt>
    ensures { Returns (λ command. command) result (graft_form selection words.now) }
{
    let Some(selection) = selection else {
        return Err(bad_words(alloc, b"graft"));
    };
    match words {
        [] => Err(bad_words(alloc, b"graft")),
        [word, others @ ..] => Ok(Command::Graft {
            selection,
            name: text_before(alloc, others, word)?,
            prune: prune_within(alloc, others)?,
        }),
    }
}

// Whether a name is `--prune` as the last word.
fn ends_names(others: &[Word], name: &[u8]) -> bool
    ensures { result ≡ ends_names others.now name.now }
{
    match others {
        [] => name == PRUNE,
        _ => false,
    }
}

// `unite [NAME ..] [--prune]`
#[tactic(auto, unfolding(crate::specs::Commands::unite_form))]
fn unite(alloc: Global, words: &[Word]) -> Result<Command, Halt>
    ensures { Returns (λ command. command) result (unite_form words.now) }
{
    let mut names = Items::new(alloc)?;
    let mut seen = ByteSet::new(alloc);
    for (i, word) in words.iter().enumerate() {
        let others = &words[i + 1..];
        let name = said_before(alloc, others, word)?;
        if ends_names(others, name.as_bytes()) {
            return Ok(Command::Unite { names, prune: true });
        }
        if seen.has(name.as_bytes()) {
            return Err(at_fault(alloc, word));
        }
        seen.add(name.as_bytes())?;
        names.push(name.copied(alloc)?)?;
    }
    Ok(Command::Unite {
        names,
        prune: false,
    })
}

// `sel divide`
fn divide(
    alloc: Global,
    selection: Option<WrittenSelection>,
    words: &[Word],
) -> Result<Command, Halt>
    ensures { Returns (λ command. command) result (divide_form selection words.now) }
{
    let Some(selection) = selection else {
        return Err(bad_words(alloc, b"divide"));
    };
    match words {
        [] => Ok(Command::Divide { selection }),
        [word, ..] => Err(at_fault(alloc, word)),
    }
}

// `[sel] do NAME [WORD ..]`
#[tactic(auto, unfolding(crate::specs::Commands::do_form))]
fn call(alloc: Global, selection: Option<WrittenSelection>, words: &[Word]) -> Result<Call, Halt>
    ensures { Returns (λ call. call) result (do_form selection words.now) }
{
    match words {
        [] => Err(bad_words(alloc, b"do")),
        [word, others @ ..] => Ok(Call {
            selection,
            name: text_before(alloc, others, word)?,
            words: texts_in(alloc, others)?,
        }),
    }
}

// What a line orders that has a command of a session.
fn steps(command: Result<Command, Halt>) -> Result<Order, Halt>
    ensures { (expected : _) → Returns (λ command. command) command expected
        → Returns (λ order. order) result (steps expected) }
{
    match command {
        Ok(command) => Ok(Order::Step(command)),
        Err(halt) => Err(halt),
    }
}

// An edit of selected events, or of all where none has to be selected.
fn edit(
    alloc: Global,
    word: EditWord,
    selection: Option<WrittenSelection>,
    words: &[Word],
) -> Result<Command, Halt>
    ensures { Returns (λ command. command) result (edit_form word selection words.now) }
{
    if selection.is_none() && word.needs_selection() {
        return Err(bad_words(alloc, word.text()));
    }
    let what = word.said(alloc, words)?;
    Ok(Command::Edit { selection, what })
}

// The command of a word that takes no selection.
fn plain(alloc: Global, word: PlainWord, words: &[Word]) -> Result<Command, Halt>
    ensures { Returns (λ command. command) result (plain_form word words.now) }
{
    match word {
        PlainWord::Read => read(alloc, words),
        PlainWord::Write => write(alloc, words),
        PlainWord::Choose => choose(alloc, words),
        PlainWord::Drop => forget(alloc, words),
        PlainWord::Renumber => renumber(alloc, words),
        PlainWord::Names => names(alloc, words),
        PlainWord::Summary => summary(alloc, words),
        PlainWord::Sample => sample(alloc, words),
        PlainWord::Expunge => expunge(alloc, words),
        PlainWord::Land => land(alloc, words),
        PlainWord::Authors => authors(alloc, words),
        PlainWord::Unite => unite(alloc, words),
    }
}

/// The order of a command word with the selection before it and the words after it.
pub fn form(
    alloc: Global,
    selection: Option<WrittenSelection>,
    keyword: Keyword,
    words: &[Word],
) -> Result<Order, Halt>
    ensures { Returns (λ order. order) result (form_of selection keyword words.now) }
{
    match keyword {
        Keyword::Plain(word) => steps(plain(alloc, word, words)),
        Keyword::Show(what) => steps(show(alloc, selection, what, words)),
        Keyword::Edit(word) => steps(edit(alloc, word, selection, words)),
        Keyword::Assign => steps(assign(alloc, selection, words)),
        Keyword::Graft => steps(graft(alloc, selection, words)),
        Keyword::Divide => steps(divide(alloc, selection, words)),
        Keyword::Do => Ok(Order::Do(call(alloc, selection, words)?)),
        Keyword::Define => Err(bad_words(alloc, b"define")),
    }
}
