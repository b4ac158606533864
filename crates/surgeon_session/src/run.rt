//! The lines of a script, one after another.
ghost use Rattle.std.specs.Prelude.{◌≡◌, ◌||◌, not, ◌≤◌, IfSome, IsErrOf, OnOk, Ok};
ghost use Rattle.plain_model.specs.Counts.{Rose};
ghost use Rattle.plain_model.specs.Faults.{refusal};
ghost use Rattle.plain_model.specs.Files.{Files};
ghost use Rattle.history_machine.specs.Machine.{passes_limit, past, run_on};
ghost use Rattle.history_machine.specs.Steps.{line_step, ordered};
ghost use Rattle.history_machine.specs.Whole.{run_from};
ghost use Rattle.surgeon_session.specs.Calls.{Caused, Later, world};
ghost use Rattle.surgeon_session.specs.Commands.{
  CarriesOut,
  LineReadsNoFile,
  OrderReadsNoFile,
  RunsLine,
  RunsOut,
  status_of_line,
};
ghost use Rattle.surgeon_session.specs.Denials.{Under, UnderAll};
ghost use Rattle.surgeon_session.specs.Ends.{IsEnd};
ghost use Rattle.surgeon_session.specs.RunsTo.{RunsTo, ScriptRunsTo};
ghost use Rattle.surgeon_session.specs.Waits.{AreWithin, EndsPast, IsPastEnd};
ghost use Rattle.surgeon_session.specs.declared.line_end.LineEnd.TheVariants as line_end;
ghost use Rattle.surgeon_store.specs.Outside.{Puts, PutsSome, StoreState};

use crate::halted::Halted;
use crate::line_end::{Broken, LineEnd};
use crate::next_line::NextLine;
use crate::session::Session;
use crate::worklist::Worklist;
use byte_patterns::Patterns;
use history_machine::Waiting;
use macro_lines::CalledLines;
use plain_model::{Fault, MAX_COMMANDS, NoMemory, Status, Which};
use script_lines::{Script, ScriptLine, is_long, too_long};
use script_reader::Order;
use std::alloc::Global;
use surgeon_store::{Sink, Store, WriteEnd, write_all};

// Carries out an order inside so many macros, and gives the lines that are run next.
fn carry_out_order<S: Store, T: Sink, P: Patterns>(
    alloc: Global,
    session: &mut Session,
    depth: u64,
    order: &Order,
    store: &mut S,
    out: &mut T,
    patterns: &mut P,
) -> Result<CalledLines, Halted>
    requires { depth ≤ MAX_COMMANDS }
    ensures carries { Under (P.sizes patterns.old) (P.sizes patterns.new)
        (λ denial. CarriesOut (λ calls. calls) (S.state store.old) (T.state out.old) session.old
        (OrderReadsNoFile (Ok order.now))
        (λ files. ordered denial session.old files depth order.now)
        result session.new (S.state store.new) (T.state out.new)) }
    ensures grows { P.sizes patterns.old ≤ P.sizes patterns.new }
{
    match order {
        Order::Step(command) => {
            session.step(command, store, out, patterns)?;
            Ok(CalledLines::none())
        }
        Order::Do(call) => Ok(session.expand(call, depth + 1)?),
    }
}

// Carries out a line inside so many macros, and gives the lines that are run next.
#[tactic(auto, unfolding(history_machine::specs::Steps::line_step))]
fn carry_out<S: Store, T: Sink, P: Patterns>(
    alloc: Global,
    session: &mut Session,
    depth: u64,
    what: ScriptLine,
    store: &mut S,
    out: &mut T,
    patterns: &mut P,
) -> Result<CalledLines, Halted>
    requires { depth ≤ MAX_COMMANDS }
    ensures carries { Under (P.sizes patterns.old) (P.sizes patterns.new)
        (λ denial. CarriesOut (λ calls. calls) (S.state store.old) (T.state out.old) session.old
        (LineReadsNoFile what) (λ files. line_step denial session.old files depth what)
        result session.new (S.state store.new) (T.state out.new)) }
    ensures grows { P.sizes patterns.old ≤ P.sizes patterns.new }
{
    match what {
        ScriptLine::Define { name, body } => {
            session.define(name, body)?;
            Ok(CalledLines::none())
        }
        ScriptLine::Plain(text) => {
            let order = Order::read(alloc, text.as_str())?;
            carry_out_order(alloc, session, depth, &order, store, out, patterns)
        }
    }
}

// Prints that a line is refused.
fn print_refusal<T: Sink>(
    alloc: Global,
    out: &mut T,
    line: u64,
    fault: &Fault,
) -> Result<(), WriteEnd>
    ensures ok { OnOk result (Puts (T.state out.old) (refusal line fault.now) (T.state out.new)) }
    ensures part { PutsSome (T.state out.old) (refusal line fault.now) (T.state out.new) }
    ensures later { (T.state out.old).faults ≤ (T.state out.new).faults }
    ensures failed { IsErrOf result WriteEnd.SinkFault
        → Rose (T.state out.old).faults (T.state out.new).faults }
    ensures quiet { OnOk result ((T.state out.new).faults ≡ (T.state out.old).faults) }
{
    match fault.refusal(alloc, line) {
        Ok(text) => write_all(out, text.as_slice()),
        Err(NoMemory) => Err(WriteEnd::Memory),
    }
}

// Whether a refusal is by a limit of runs, which ends each run.
fn passes_limit(fault: &Fault) -> bool
    ensures { result ≡ passes_limit fault.now }
{
    match fault {
        Fault::ExpansionLimit { .. } => true,
        _ => false,
    }
}

// Carries out a line, or prints its refusal.
fn run_line<S: Store, T: Sink, P: Patterns>(
    alloc: Global,
    session: &mut Session,
    next: Waiting,
    store: &mut S,
    out: &mut T,
    patterns: &mut P,
) -> LineEnd
    requires { next.depth ≤ MAX_COMMANDS }
    ensures runs { Under (P.sizes patterns.old) (P.sizes patterns.new)
        (λ denial. RunsLine (S.state store.old) (T.state out.old) session.old next.line
        (LineReadsNoFile next.what)
        (λ files. line_step denial session.old files next.depth next.what)
        result session.new (S.state store.new) (T.state out.new)) }
    ensures grows { P.sizes patterns.old ≤ P.sizes patterns.new }
{
    let line = next.line;
    match carry_out(alloc, session, next.depth, next.what, store, out, patterns) {
        Ok(calls) => LineEnd::Done(calls),
        Err(Halted::Refused(fault)) => match print_refusal(alloc, out, line, &fault) {
            Ok(()) => LineEnd::Refused {
                is_last: passes_limit(&fault),
            },
            Err(WriteEnd::SinkFault) => LineEnd::Broken(Broken::SinkFault),
            Err(WriteEnd::Memory) => LineEnd::Broken(Broken::Memory),
        },
        Err(Halted::SourceFault) => LineEnd::Broken(Broken::SourceFault),
        Err(Halted::SinkFault) => LineEnd::Broken(Broken::SinkFault),
        Err(Halted::Memory) => LineEnd::Broken(Broken::Memory),
    }
}

// What is reported of the line after the last one that may be run.
fn past(what: &ScriptLine) -> Fault
    ensures { result ≡ past what.now }
{
    match what {
        ScriptLine::Plain(text) if is_long(text.as_str()) => too_long(),
        _ => Fault::ExpansionLimit {
            which: Which::Commands,
            number: MAX_COMMANDS,
        },
    }
}

// Refuses the line at which a run ends, since no more may be run or it is too long.
fn refuse_last<T: Sink>(alloc: Global, out: &mut T, line: u64, fault: &Fault) -> Status
    ensures prescribed { (s : StoreState) → IfSome (world s (T.state out.old))
        (λ w. IfSome (world s (T.state out.new))
        (λ now. EndsPast line fault.now result w now)) }
    ensures caused { (s : StoreState) → Caused s (T.state out.old) result s (T.state out.new) }
    ensures later { (s : StoreState) → Later s (T.state out.old) s (T.state out.new) }
    ensures ends { IsEnd result }
    ensures past { IsPastEnd result }
{
    match print_refusal(alloc, out, line, fault) {
        Ok(()) => Status::Refused,
        Err(WriteEnd::SinkFault) => Status::SinkFault,
        Err(WriteEnd::Memory) => Status::Memory,
    }
}

// The status of a run that breaks off so.
fn broken_status(how: Broken) -> Status
    ensures { result ≡ status_of_line (line_end.Broken how) }
{
    match how {
        Broken::SourceFault => Status::SourceFault,
        Broken::SinkFault => Status::SinkFault,
        Broken::Memory => Status::Memory,
    }
}

// Whether a run ends with a refusal.
fn is_stop(keep_going: bool, is_last: bool) -> bool
    ensures { result ≡ (is_last || not keep_going) }
{
    is_last || !keep_going
}

// Runs the lines that wait.
fn run_lines<S: Store, T: Sink, P: Patterns>(
    alloc: Global,
    session: &mut Session,
    mut lines: Worklist,
    keep_going: bool,
    store: &mut S,
    out: &mut T,
    patterns: &mut P,
) -> Status
    requires { AreWithin MAX_COMMANDS MAX_COMMANDS lines }
    ensures runs { UnderAll (P.sizes patterns.old) (P.sizes patterns.new)
        (λ denials. RunsOut (S.state store.old) (T.state out.old) session.old
        (λ files. run_on line_step keep_going MAX_COMMANDS denials Status.Done session.old files lines)
        (RunsTo line_step keep_going MAX_COMMANDS denials Status.Done session.old lines)
        result session.new (S.state store.new) (T.state out.new)) }
    ensures grows { P.sizes patterns.old ≤ P.sizes patterns.new }
    ensures ends { IsEnd result }
{
    let mut so_far = Status::Done;
    let mut left = MAX_COMMANDS;
    while let Some(next) = lines.take() {
        match next {
            NextLine::Line(next) => {
                if left == 0 {
                    return refuse_last(alloc, out, next.line, &past(&next.what));
                }
                left -= 1;
                let line = next.line;
                let depth = next.depth + 1;
                match run_line(alloc, session, next, store, out, patterns) {
                    LineEnd::Done(calls) => match lines.call(line, depth, calls) {
                        Ok(()) => {}
                        Err(NoMemory) => return Status::Memory,
                    },
                    LineEnd::Refused { is_last } => {
                        if is_stop(keep_going, is_last) {
                            return Status::Refused;
                        }
                        so_far = Status::Refused;
                    }
                    LineEnd::Broken(how) => return broken_status(how),
                }
            }
            NextLine::TooLong { line } => return refuse_last(alloc, out, line, &too_long()),
            NextLine::NoMemory => return Status::Memory,
        }
    }
    so_far
}

impl Session {
    /// Runs a script: each line's command is carried out, or refused with a printed line. A `do` is followed by the lines that it
    /// calls. The first refusal ends the run, unless it is to keep going; one by a limit of runs (24) always does.
    pub fn run<S: Store, T: Sink, P: Patterns>(
        &mut self,
        script: &Script,
        keep_going: bool,
        store: &mut S,
        out: &mut T,
        patterns: &mut P,
    ) -> Status
        ensures runs { UnderAll (P.sizes patterns.old) (P.sizes patterns.new)
            (λ denials. RunsOut (S.state store.old) (T.state out.old) self.old
            (λ files. run_from denials self.old files script.now keep_going)
            (ScriptRunsTo denials self.old script.now keep_going)
            result self.new (S.state store.new) (T.state out.new)) }
        ensures grows { P.sizes patterns.old ≤ P.sizes patterns.new }

        // A run of a script never ends with Usage, NoScript or BadScript.
        ensures ends { IsEnd result }
    {
        let alloc = self.allocator();
        match Worklist::of(alloc, script) {
            Ok(lines) => run_lines(alloc, self, lines, keep_going, store, out, patterns),
            Err(NoMemory) => Status::Memory,
        }
    }
}
