//! Which repository is chosen, and which are forgotten.
ghost use Rattle.std.specs.Prelude.{◌≡◌, OnErr};
ghost use Rattle.history_machine.specs.Sessions.{after_choose, after_drop, after_drop_chosen, unless};
ghost use Rattle.load_list.specs.Lists.{Changes};

use super::LoadList;
use crate::faults::not_there;
use plain_model::{Halt, Items, Text};

// Takes a choice away that is of the name.
fn clear_choice(choice: &mut Option<Text>, name: &[u8])
    ensures { choice.new ≡ unless name.now choice.old }
{
    let leaves = match choice {
        Some(chosen) => name == chosen.as_slice(),
        None => false,
    };
    if leaves {
        *choice = None;
    }
}

impl LoadList {
    /// `choose NAME`
    #[tactic(auto, unfolding(history_machine::specs::Sessions::after_choose))]
    pub fn choose(&mut self, name: &[u8]) -> Result<(), Halt>
        ensures changes { Changes (λ s. after_choose s name.now) self.old result self.new }
        ensures kept { OnErr result (self.new ≡ self.old) }
    {
        if !self.has(name) {
            return Err(Halt::Refused(not_there(self.alloc, name)?));
        }
        let choice = Items::of(self.alloc, name)?;
        self.choice = Some(choice);
        Ok(())
    }

    /// `drop NAME`
    #[tactic(auto, unfolding(history_machine::specs::Sessions::after_drop))]
    pub fn forget(&mut self, name: &[u8]) -> Result<(), Halt>
        ensures changes { Changes (λ s. after_drop s name.now) self.old result self.new }
        ensures kept { OnErr result (self.new ≡ self.old) }
    {
        if !self.has(name) {
            return Err(Halt::Refused(not_there(self.alloc, name)?));
        }
        self.remove(name);
        clear_choice(&mut self.choice, name);
        Ok(())
    }

    /// `drop`
    #[tactic(auto, unfolding(history_machine::specs::Sessions::after_drop_chosen, history_machine::specs::Sessions::chosen))]
    pub fn forget_chosen(&mut self) -> Result<(), Halt>
        ensures changes { Changes after_drop_chosen self.old result self.new }
        ensures kept { OnErr result (self.new ≡ self.old) }
    {
        let (name, _) = self.chosen()?;
        let name = Items::of(self.alloc, name)?;
        self.forget(name.as_slice())
    }
}
