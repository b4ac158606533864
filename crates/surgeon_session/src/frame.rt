//! The lines of a macro that wait to be run.
ghost use Rattle.std.specs.Prelude.{◌≡◌};
ghost use Rattle.history_machine.specs.Machine.{called_by};
ghost use Rattle.surgeon_session.specs.Waits.{IsNext};

use crate::next_line::NextLine;
use history_machine::Waiting;
use macro_lines::{CalledLine, CalledLines};
use plain_model::NoMemory;
use script_lines::ScriptLine;
use std::alloc::Global;
use std::marker::Model;

/// The lines that an order has called and that wait to be run, for such a line of the script and inside so many macros.
#[derive(Drop)]
pub struct Frame {
    line: u64,
    depth: u64,
    lines: CalledLines,
}

impl Model for Frame {
    ghost use Rattle.std.specs.Prelude.{List};
    ghost use Rattle.history_machine.specs.Machine.{called_by};
    ghost use Rattle.history_machine.specs.declared.waiting.Waiting.{Waiting};

    ghost Value = { List Waiting };

    ghost view = { λ f. called_by f.line f.depth f.lines };
}

impl Frame {
    pub fn new(line: u64, depth: u64, lines: CalledLines) -> Frame
        ensures { result ≡ called_by line depth lines }
    {
        Frame { line, depth, lines }
    }

    /// Takes the next line out.
    pub fn take(&mut self, alloc: Global) -> Option<NextLine>
        ensures { IsNext result self.old self.new }
    {
        match self.lines.take(alloc) {
            Ok(Some(CalledLine::Whole(text))) => Some(NextLine::Line(Waiting {
                line: self.line,
                depth: self.depth,
                what: ScriptLine::Plain(text),
            })),
            Ok(Some(CalledLine::TooLong)) => Some(NextLine::TooLong { line: self.line }),
            Ok(None) => None,
            Err(NoMemory) => Some(NextLine::NoMemory),
        }
    }
}
