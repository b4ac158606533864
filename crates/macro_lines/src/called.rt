//! The lines that an order puts in the place of its own.
ghost use Rattle.std.specs.Prelude.{◌≡◌, [], IfOk};
ghost use Rattle.macro_lines.specs.Taken.{IsTaken};

pub use crate::running::CalledLine;
use crate::running::Running;
use plain_model::NoMemory;
use std::alloc::Global;
use std::marker::Model;

/// The lines that an order puts in the place of its own, in their order: those of a macro, or none. Each is made when it is taken, so
/// that those to come take no memory, and one that is too long takes none either.
#[derive(Drop)]
pub struct CalledLines {
    running: Option<Running>,
}

impl Model for CalledLines {
    ghost use Rattle.std.specs.Prelude.{List, ℕ};
    ghost use Rattle.macro_lines.specs.Left.{lines_left};

    ghost Value = { List (List ℕ) };

    ghost view = { λ c. lines_left c.running };
}

impl CalledLines {
    /// No lines, as of an order that runs no macro.
    pub fn none() -> CalledLines
        ensures { result ≡ [] }
    {
        CalledLines { running: None }
    }

    /// The lines of a macro.
    pub(crate) fn of(running: Running) -> CalledLines
        ensures { result ≡ running }
    {
        CalledLines {
            running: Some(running),
        }
    }

    /// Takes the first line out; none where no line is left.
    pub fn take(&mut self, alloc: Global) -> Result<Option<CalledLine>, NoMemory>
        ensures { IfOk result (λ taken. IsTaken taken self.old self.new) }
    {
        match &mut self.running {
            Some(running) => running.take(alloc),
            None => Ok(None),
        }
    }
}
