//! The lines that wait to be run.
ghost use Rattle.std.specs.Prelude.{◌≡◌, ◌++◌, map, IfOk, OnOk};
ghost use Rattle.history_machine.specs.Machine.{called_by};
ghost use Rattle.history_machine.specs.Whole.{waiting_of};
ghost use Rattle.surgeon_session.specs.Stacks.{from_last};
ghost use Rattle.surgeon_session.specs.Waits.{IsNext};

use crate::frame::Frame;
use crate::next_line::NextLine;
use history_machine::Waiting;
use macro_lines::CalledLines;
use plain_model::{Copied, NoMemory};
use script_lines::Script;
use std::alloc::Global;
use std::collections::VecDeque;
use std::marker::Model;
use std::mem;

/// The lines that wait to be run, the next one first: those of the innermost macro, those of the macros around it, of which the outermost
/// comes first here, and those of the script.
#[derive(Drop)]
pub struct Worklist {
    alloc: Global,
    current: Frame,
    around: Vec<Frame>,
    script: VecDeque<Waiting>,
}

impl Model for Worklist {
    ghost use Rattle.std.specs.Prelude.{List, ◌++◌};
    ghost use Rattle.history_machine.specs.declared.waiting.Waiting.{Waiting};
    ghost use Rattle.surgeon_session.specs.Stacks.{from_last};

    ghost Value = { List Waiting };

    ghost view = { λ w. w.current ++ (from_last w.around.items ++ w.script.items) };
}

// The lines of a script.
fn lines_of(alloc: Global, script: &Script) -> Result<VecDeque<Waiting>, NoMemory>
    ensures { IfOk result (λ lines. lines.items ≡ map waiting_of script.now) }
{
    let items = script.items();
    let mut lines = VecDeque::with_capacity(alloc, items.len())?;
    for item in items {
        lines.push_back(Waiting {
            line: item.line,
            depth: 0,
            what: item.what.copied(alloc)?,
        })?;
    }
    Ok(lines)
}

// Takes the next line of macros out, of the innermost one that has one left.
fn take_called(alloc: Global, current: &mut Frame, around: &mut Vec<Frame>) -> Option<NextLine>
    ensures { IsNext result (current.old ++ from_last around.old.items)
        (current.new ++ from_last around.new.items) }
{
    if let Some(next) = current.take(alloc) {
        return Some(next);
    }
    match around.pop() {
        Some(frame) => {
            *current = frame;
            take_called(alloc, current, around)
        }
        None => None,
    }
}

// Takes the next line of the script out.
fn take_written(script: &mut VecDeque<Waiting>) -> Option<NextLine>
    ensures { IsNext result script.old.items script.new.items }
{
    match script.pop_front() {
        Some(next) => Some(NextLine::Line(next)),
        None => None,
    }
}

impl Worklist {
    /// The lines of a script.
    pub fn of(alloc: Global, script: &Script) -> Result<Worklist, NoMemory>
        ensures { IfOk result (λ lines. lines ≡ map waiting_of script.now) }
    {
        let script = lines_of(alloc, script)?;
        Ok(Worklist {
            alloc,
            current: Frame::new(0, 0, CalledLines::none()),
            around: Vec::new(alloc),
            script,
        })
    }

    /// Takes the next line out.
    pub fn take(&mut self) -> Option<NextLine>
        ensures { IsNext result self.old self.new }
    {
        match take_called(self.alloc, &mut self.current, &mut self.around) {
            Some(next) => Some(next),
            None => take_written(&mut self.script),
        }
    }

    /// Puts lines before all others, which an order puts in the place of one for such a line of the script, with their depth.
    pub fn call(&mut self, line: u64, depth: u64, lines: CalledLines) -> Result<(), NoMemory>
        ensures { OnOk result (self.new ≡ called_by line depth lines ++ self.old) }
    {
        let around = mem::replace(&mut self.current, Frame::new(line, depth, lines));
        self.around.push(around)?;
        Ok(())
    }
}
