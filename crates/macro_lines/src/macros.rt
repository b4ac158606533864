//! Macros by name.
ghost use Rattle.std.specs.Prelude.{◌≡◌, [], option_map, IfOk, OnErr, OnOk};
ghost use Rattle.plain_model.specs.Faults.{Returns};
ghost use Rattle.plain_model.specs.declared.fault.Fault.TheVariants.{UnknownMacro};
ghost use Rattle.macro_lines.specs.Macros.{called, find_macro, with_macro};

use crate::called::CalledLines;
use crate::running::Running;
use indexmap::IndexMap;
use plain_model::{Fault, Halt, Items, MAX_MACRO_DEPTH, NoMemory, Shared, Text};
use script_lines::LineList;
use script_reader::Call;
use std::alloc::Global;
use std::marker::Model;

/// Macros by name, in the order in which the names came. (reposurgeon manual, `define`)
#[derive(Drop)]
pub struct Macros {
    alloc: Global,
    by_name: IndexMap<Vec<u8>, Shared<LineList>>,
}

impl Model for Macros {
    ghost use Rattle.std.specs.Prelude.{List};
    ghost use Rattle.macro_lines.specs.Macros.{Macro, macros_of};

    ghost Value = { List Macro };

    ghost view = { λ m. macros_of m.by_name.entries };
}

// The refusal of a name that no macro has.
fn unknown(alloc: Global, name: &[u8]) -> Result<Fault, NoMemory>
    ensures { IfOk result (λ fault. fault ≡ UnknownMacro name.now) }
{
    let name = Items::of(alloc, name)?;
    Ok(Fault::UnknownMacro { name })
}

impl Macros {
    /// No macros.
    pub fn new(alloc: Global) -> Macros
        ensures { result ≡ [] }
    {
        Macros {
            alloc,
            by_name: IndexMap::new(alloc),
        }
    }

    /// Defines a macro, in the place of an older one of the name. A refused call leaves them as they were.
    pub fn define(&mut self, name: Text, body: LineList) -> Result<(), NoMemory>
        ensures ok { OnOk result (self.new ≡ with_macro name body self.old) }
        ensures err { OnErr result (self.new ≡ self.old) }
    {
        let body = Shared::new(self.alloc, body)?;
        let _ = self.by_name.insert(name.into_items(), body)?;
        Ok(())
    }

    // The body of the macro with the name.
    fn body(&self, name: &[u8]) -> Option<&Shared<LineList>>
        ensures { option_map (λ body. body.now) result ≡ find_macro name.now self.now }
    {
        match self.by_name.get(name) {
            Some(body) => Some(body),
            None => None,
        }
    }

    /// The lines that a `do` puts in its place, where its body is run at this depth. Refused where no macro has the name, then
    /// where that is too deep, and then where a word is missing.
    #[tactic(auto, unfolding(crate::specs::Macros::called))]
    pub fn expand(&self, call: &Call, depth: u64) -> Result<CalledLines, Halt>
        ensures { Returns (λ lines. lines) result (called self.now call.now depth) }
    {
        let Some(body) = self.body(call.name.as_bytes()) else {
            return Err(Halt::Refused(unknown(self.alloc, call.name.as_bytes())?));
        };
        if depth > MAX_MACRO_DEPTH {
            return Err(Halt::Refused(Fault::MacroDepth { depth }));
        }
        let running = Running::of(self.alloc, call, body)?;
        Ok(CalledLines::of(running))
    }
}
