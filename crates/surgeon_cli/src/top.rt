//! The run that a command line names.
ghost use Rattle.std.specs.Prelude.{
  ◌≡◌,
  ◌+◌,
  ◌++◌,
  ◌∷◌,
  [],
  ◌≤◌,
  map,
  string_bytes,
  IfOk,
  OnOk,
  IsErrOf,
  IfSome,
  Err,
  Some,
  ◌≢◌,
};
ghost use Rattle.plain_model.specs.Counts.{Rose};
ghost use Rattle.surgeon_store.specs.Outside.{Puts, PutsSome, Reads, StoreState};
ghost use Rattle.history_machine.specs.Machine.{EndsAs, World};
ghost use Rattle.history_machine.specs.Reads.{ReadsStreams};
ghost use Rattle.history_machine.specs.Sessions.{empty_session};
ghost use Rattle.history_machine.specs.Whole.{
  only_prints,
  run,
  run_asked,
  run_from,
  script_in,
  unread,
  unread_line,
  unread_status,
  usage,
};
ghost use Rattle.std.specs.FinMap.{get};
ghost use Rattle.surgeon_store.specs.WholeFiles.{IsQuiet, LeavesAfter, ReturnsOrBreaks};
ghost use Rattle.surgeon_session.specs.Calls.{Caused, Later, Outcome, world};
ghost use Rattle.surgeon_session.specs.Denials.{UnderAll};
ghost use Rattle.surgeon_session.specs.Ends.{IsEnd};
ghost use Rattle.surgeon_session.specs.Pieces.{bytes_in};
ghost use Rattle.surgeon_cli.specs.Headline.{
  AnswersAsked,
  AnswersScript,
  AnswersWords,
  AsPrescribed,
  CausedByPrinting,
  IsUnreadEnd,
  IsUsageEnd,
  ShowsHistories,
  ShowsWrites,
  StopsAsked,
  StopsPastLimit,
  Succeeds,
};
ghost use Rattle.plain_model.specs.Files.{Files};

use byte_patterns::Patterns;
use command_line::asked_in;
use history_machine::{
    a_step_keeps_it, a_write_sends_the_stream, the_chosen_history_is_lawful,
    the_reads_of_a_run_are_spelled,
};
use plain_model::{Fault, Items, MAX_SCRIPT_BYTES, NoMemory, Status, Text};
use script_lines::{Script, a_script_is_never_absent};
use shown_laws::what_is_written_shows_the_history;
use std::alloc::Global;
use std::mem;
use surgeon_session::Session;
use surgeon_store::{ReadEnd, Sink, Store, WriteEnd, read_file, write_all};

fn status_of(why: &Fault) -> Status
    ensures { result ≡ unread_status why.now }
{
    match why {
        Fault::Absent { .. } => Status::NoScript,
        _ => Status::BadScript,
    }
}

// The line that is printed where a script is not read.
fn line_of(alloc: Global, name: &[u8], ends: Status, why: &Fault) -> Result<Text, NoMemory>
    ensures { IfOk result (λ line. line ≡ unread_line name.now ends why.now) }
{
    let mut line = Items::new(alloc)?;
    match ends {
        Status::NoScript => {
            line.push_all(b"surgeon: no script ")?;
            line.push_all(name)?;
        }
        _ => {
            line.push_all(b"surgeon: script refused ")?;
            let text = why.text(alloc)?;
            line.push_all(text.as_slice())?;
        }
    }
    Ok(line)
}

// Prints a line.
fn print_line<T: Sink>(out: &mut T, mut line: Text) -> Result<(), WriteEnd>
    ensures ok { OnOk result (Puts (T.state out.old) (line ++ 10 ∷ []) (T.state out.new)) }
    ensures part { PutsSome (T.state out.old) (line ++ 10 ∷ []) (T.state out.new) }
    ensures later { (T.state out.old).faults ≤ (T.state out.new).faults }
    ensures failed { IsErrOf result WriteEnd.SinkFault
        → Rose (T.state out.old).faults (T.state out.new).faults }
    ensures quiet { OnOk result ((T.state out.new).faults ≡ (T.state out.old).faults) }
{
    match line.push(b'\n') {
        Ok(()) => write_all(out, line.as_slice()),
        Err(NoMemory) => Err(WriteEnd::Memory),
    }
}

// Tells that a script is not read.
fn unread_script<T: Sink>(alloc: Global, name: &[u8], why: &Fault, out: &mut T) -> Status
    ensures prescribed { (s : StoreState) → IfSome (world s (T.state out.old))
        (λ w. IfSome (world s (T.state out.new))
        (λ now. EndsAs (unread name.now why.now) result w now)) }
    ensures caused { CausedByPrinting (T.state out.old) result (T.state out.new) }
    ensures ends { IsUnreadEnd why.now result }
    ensures later { (s : StoreState) → Later s (T.state out.old) s (T.state out.new) }
{
    let ends = status_of(why);
    let line = match line_of(alloc, name, ends, why) {
        Ok(line) => line,
        Err(NoMemory) => return Status::Memory,
    };
    match print_line(out, line) {
        Ok(()) => ends,
        Err(WriteEnd::SinkFault) => Status::SinkFault,
        Err(WriteEnd::Memory) => Status::Memory,
    }
}

#[tactic(auto, unfolding(history_machine::specs::Whole::usage))]
fn usage_line(alloc: Global) -> Result<Text, NoMemory>
    ensures { IfOk result (λ line. line ≡ usage) }
{
    Items::of(alloc, b"usage: surgeon [--keep-going] SCRIPT")
}

// Prints how the program is called.
fn print_usage<T: Sink>(alloc: Global, out: &mut T) -> Status
    ensures prescribed { (s : StoreState) → IfSome (world s (T.state out.old))
        (λ w. IfSome (world s (T.state out.new))
        (λ now. EndsAs (only_prints Status.Usage usage) result w now)) }
    ensures caused { CausedByPrinting (T.state out.old) result (T.state out.new) }
    ensures ends { IsUsageEnd result }
    ensures later { (s : StoreState) → Later s (T.state out.old) s (T.state out.new) }
{
    let line = match usage_line(alloc) {
        Ok(line) => line,
        Err(NoMemory) => return Status::Memory,
    };
    match print_line(out, line) {
        Ok(()) => Status::Usage,
        Err(WriteEnd::SinkFault) => Status::SinkFault,
        Err(WriteEnd::Memory) => Status::Memory,
    }
}

// The script of a file.
fn script_in<S: Store>(alloc: Global, store: &mut S, name: &str) -> Result<Script, ReadEnd>
    ensures returns { IfSome (S.state store.old).files
        (λ files. ReturnsOrBreaks (λ script. script) result (script_in files name.now)) }
    ensures taken { IfSome (S.state store.old).files
        (λ files. IfSome (get files name.now)
        (λ bytes. LeavesAfter (MAX_SCRIPT_BYTES + 1) bytes result (S.state store.new))) }
    ensures missed { (name : _) → result ≡ Err (ReadEnd.Refused (Fault.Absent name))
        → Rose (S.state store.old).misses (S.state store.new).misses }
    ensures failed { IsErrOf result ReadEnd.SourceFault
        → Rose (S.state store.old).read_faults (S.state store.new).read_faults }
    ensures quiet { IsQuiet result (S.state store.old) (S.state store.new) }
    ensures frame { Reads (S.state store.old) (S.state store.new) }
{
    a_script_is_never_absent();
    let bytes = match read_file(alloc, store, name, MAX_SCRIPT_BYTES) {
        Ok(bytes) => bytes,
        Err(end) => return Err(end),
    };
    match Script::read(alloc, bytes.as_slice()) {
        Ok(script) => Ok(script),
        Err(halt) => Err(ReadEnd::from(halt)),
    }
}

// Runs a script from the empty session on.
fn run_script<S: Store, T: Sink, P: Patterns>(
    alloc: Global,
    script: &Script,
    keep_going: bool,
    store: &mut S,
    out: &mut T,
    patterns: &mut P,
) -> Status
    ensures outcome { UnderAll (P.sizes patterns.old) (P.sizes patterns.new)
        (λ denials. Outcome
        (λ w now. EndsAs (run_from denials empty_session w.files script.now keep_going) result w now)
        (S.state store.old) (T.state out.old) result (S.state store.new) (T.state out.new)) }
    ensures grows { P.sizes patterns.old ≤ P.sizes patterns.new }
    ensures ends { IsEnd result }
{
    match Session::new(alloc) {
        Ok(mut session) => {
            let status = session.run(script, keep_going, store, out, patterns);
            // The program ends with this run, and then its memory goes back at once. Event by event it would take longer.
            mem::forget(session);
            status
        }
        Err(NoMemory) => Status::Memory,
    }
}

// Runs the script of a file.
fn run_file<S: Store, T: Sink, P: Patterns>(
    alloc: Global,
    name: &str,
    keep_going: bool,
    store: &mut S,
    out: &mut T,
    patterns: &mut P,
) -> Status
    ensures outcome { UnderAll (P.sizes patterns.old) (P.sizes patterns.new)
        (λ denials. Outcome
        (λ w now. EndsAs (run_asked denials w.files
        (Some (record { keep_going = keep_going; script = name.now }))) result w now)
        (S.state store.old) (T.state out.old) result (S.state store.new) (T.state out.new)) }
    ensures grows { P.sizes patterns.old ≤ P.sizes patterns.new }
    ensures words { result ≢ Status.Usage }
    ensures script { IfSome (S.state store.old).files
        (λ files. AnswersScript (script_in files name.now) result) }
    ensures taken { StopsPastLimit (bytes_in (S.state store.old).files name.now) result
        (S.state store.new).rest }
{
    match script_in(alloc, store, name) {
        Ok(script) => run_script(alloc, &script, keep_going, store, out, patterns),
        Err(ReadEnd::Refused(why)) => unread_script(alloc, name.as_bytes(), &why, out),
        Err(ReadEnd::SourceFault) => Status::SourceFault,
        Err(ReadEnd::Memory) => Status::Memory,
    }
}

// Runs what the words ask for.
#[tactic(auto, unfolding(history_machine::specs::Whole::run))]
fn run_words<S: Store, T: Sink, P: Patterns>(
    alloc: Global,
    words: &[String],
    store: &mut S,
    out: &mut T,
    patterns: &mut P,
) -> Status
    ensures outcome { UnderAll (P.sizes patterns.old) (P.sizes patterns.new)
        (λ denials. Outcome
        (λ w now. EndsAs (run denials (map string_bytes words.now) w.files) result w now)
        (S.state store.old) (T.state out.old) result (S.state store.new) (T.state out.new)) }
    ensures grows { P.sizes patterns.old ≤ P.sizes patterns.new }
    ensures words { AnswersWords (map string_bytes words.now) result }
    ensures script { AnswersAsked (map string_bytes words.now) (S.state store.old).files result }
    ensures taken { StopsAsked (map string_bytes words.now) (S.state store.old) result
        (S.state store.new) }
{
    match asked_in(alloc, words) {
        Ok(Some(asked)) => run_file(alloc, asked.script, asked.keep_going, store, out, patterns),
        Ok(None) => print_usage(alloc, out),
        Err(NoMemory) => Status::Memory,
    }
}

/// Runs the script that the words name, over these files and this output, with what builds patterns. The first word is the program's
/// name; with `--keep-going` among the others the run goes on after refusals. (own)
pub fn surgeon<S: Store, T: Sink, P: Patterns>(
    alloc: Global,
    words: &[String],
    store: &mut S,
    out: &mut T,
    patterns: &mut P,
) -> Status
    // What the plain machine prescribes, to its end, or up to where a fault or out of memory broke it off.
    ensures prescribed { AsPrescribed (map string_bytes words.now) (S.state store.old) (T.state out.old)
        (P.sizes patterns.old) result (S.state store.new) (T.state out.new) (P.sizes patterns.new) }

    // A status that tells of the outside is one whose count rose; with any other, unless memory was out, no count of faults did. Without
    // faults and with memory the run comes to its end.
    ensures caused { Caused (S.state store.old) (T.state out.old) result
        (S.state store.new) (T.state out.new) }
    ensures complete { Succeeds (map string_bytes words.now) (S.state store.old) (T.state out.old)
        (P.sizes patterns.old) result (S.state store.new) (T.state out.new) (P.sizes patterns.new) }
    ensures later { Later (S.state store.old) (T.state out.old)
        (S.state store.new) (T.state out.new) }
    ensures grows { P.sizes patterns.old ≤ P.sizes patterns.new }

    // Usage comes exactly where the words aren't right, whatever the store says; but a fault of printing or
    // out of memory may come in its place.
    ensures words { AnswersWords (map string_bytes words.now) result }

    // NoScript and BadScript come exactly where the script isn't there or is none, over a store that tells its files, whatever the
    // output does; but a fault outside or out of memory may come in their place. At most one byte past a script's limit is taken.
    ensures script { AnswersAsked (map string_bytes words.now) (S.state store.old).files result }
    ensures taken { StopsAsked (map string_bytes words.now) (S.state store.old) result
        (S.state store.new) }

    // Each history that the run holds, and so each that it writes, is shown by its text: that is a stream by the productions,
    // whose history is written as the same bytes, and a replay by plain maps shows what that history shows.
    ensures replayed { (files : Files) → ShowsHistories (map string_bytes words.now) files }

    // What a `write` line has sent, to its file or as output, is the text of the history that was chosen, and shows it.
    ensures written { (files : Files) → ShowsWrites (map string_bytes words.now) files }

    // What a `read` line gives is the history of the events that its file spells by the productions, and a file is refused as a
    // bad stream only where it spells none that have one.
    ensures read { (files : Files) → ReadsStreams (map string_bytes words.now) files }
{
    what_is_written_shows_the_history();
    a_step_keeps_it();
    a_write_sends_the_stream();
    the_reads_of_a_run_are_spelled();
    the_chosen_history_is_lawful();
    run_words(alloc, words, store, out, patterns)
}
