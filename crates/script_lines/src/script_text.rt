//! Texts of a script.
ghost use Rattle.std.specs.Prelude.{◌≡◌, ◌++◌, [], IfOk, OnOk};

use plain_model::{Copied, NoMemory};
use std::alloc::Global;
use std::marker::Model;

/// A text of a script, which is UTF-8. (own)
#[derive(Drop)]
pub struct ScriptText {
    text: String,
}

impl Model for ScriptText {
    ghost use Rattle.std.specs.Prelude.{List, ℕ, string_bytes};

    ghost Value = { List ℕ };

    ghost view = { λ t. string_bytes t.text };
}

impl ScriptText {
    /// A text of its own with the same characters.
    pub fn of(alloc: Global, text: &str) -> Result<ScriptText, NoMemory>
        ensures { IfOk result (λ made. made ≡ text.now) }
    {
        Ok(ScriptText {
            text: String::from_str(alloc, text)?,
        })
    }

    /// The text without characters. It takes no memory.
    pub fn empty(alloc: Global) -> ScriptText
        ensures { result ≡ [] }
    {
        ScriptText {
            text: String::new(alloc),
        }
    }

    /// Puts characters at the end.
    pub fn push_str(&mut self, text: &str) -> Result<(), NoMemory>
        ensures { OnOk result (self.new ≡ self.old ++ text.now) }
    {
        self.text.push_str(text)?;
        Ok(())
    }

    pub fn as_str(&self) -> &str
        ensures { result.now ≡ self.now }
    {
        self.text.as_str()
    }

    pub fn as_bytes(&self) -> &[u8]
        ensures { result.now ≡ self.now }
    {
        self.as_str().as_bytes()
    }
}

impl Copied for ScriptText {
    fn copied(&self, alloc: Global) -> Result<ScriptText, NoMemory> {
        ScriptText::of(alloc, self.as_str())
    }
}
