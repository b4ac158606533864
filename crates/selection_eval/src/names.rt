//! Names that are assigned to lists of events.
ghost use Rattle.std.specs.Prelude.{◌≡◌, ◌++◌, ◌∷◌, [], None, option_map, IfOk, OnErr, OnOk};
ghost use Rattle.event_sets.specs.Sets.{is_live, live};
ghost use Rattle.selection_eval.specs.Names.{assigned, live_names};

use event_arena::Events;
use indexmap::IndexMap;
use plain_model::{AnyId, IdList, Items, NoMemory, Text};
use std::alloc::Global;
use std::marker::Model;

/// Lists of events by the names that were assigned to them, in the order in which the names came. A list may hold ids
/// that are no longer events. (reposurgeon manual, `assign`)
#[derive(Drop)]
pub struct Names {
    by_name: IndexMap<Vec<u8>, Vec<AnyId>>,
}

impl Model for Names {
    ghost use Rattle.std.specs.Prelude.{List, ℕ};
    ghost use Rattle.plain_model.specs.declared.id.AnyId.{AnyId};
    ghost use Rattle.selection_eval.specs.Names.{names_of};

    ghost Value = { List (List ℕ × List AnyId) };

    ghost view = { λ n. names_of n.by_name.entries };
}

// An event of the history has the id.
#[tactic(auto, using(crate::proofs::NameSteps::placed))]
fn is_live(events: &Events, id: AnyId) -> bool
    ensures { result ≡ is_live events.now.list id }
{
    events.place(id).is_some()
}

// Takes away the ids that are no events.
fn retain_live(ids: &mut Vec<AnyId>, events: &Events)
    ensures { ids.new.items ≡ live events.now.list ids.old.items }
{
    ids.retain(|id| is_live(events, *id));
}

impl Names {
    /// No name.
    pub fn new(alloc: Global) -> Names
        ensures { result ≡ [] }
    {
        Names {
            by_name: IndexMap::new(alloc),
        }
    }

    /// Assigns a name that isn't there to a list. A refused call leaves them as they were.
    pub fn assign(&mut self, name: Text, list: IdList) -> Result<(), NoMemory>
        requires { assigned name self.old ≡ None }
        ensures ok { OnOk result (self.new ≡ self.old ++ (name, list) ∷ []) }
        ensures err { OnErr result (self.new ≡ self.old) }
    {
        let _ = self.by_name.insert(name.into_items(), list.into_items())?;
        Ok(())
    }

    /// The list that is assigned to a name.
    pub fn get(&self, name: &[u8]) -> Option<&[AnyId]>
        ensures { option_map (λ list. list.now) result ≡ assigned name.now self.now }
    {
        match self.by_name.get(name) {
            Some(list) => Some(list.as_slice()),
            None => None,
        }
    }

    /// Names with the same lists, but that each has only ids that are events of a history.
    pub fn live_copy(&self, alloc: Global, events: &Events) -> Result<Names, NoMemory>
        ensures { IfOk result (λ made. made ≡ live_names events.now.list self.now) }
    {
        let mut made = Names::new(alloc);
        for place in 0..self.by_name.len() {
            let (name, list) = self.by_name.get_index(place).unwrap();
            let name = Items::of(alloc, name.as_slice())?;
            let list = Items::of(alloc, list.as_slice())?;
            made.assign(name, list)?;
        }
        made.keep_live(events);
        Ok(made)
    }

    /// Takes away the ids that are no events of a history, from each list. It takes no memory.
    pub fn keep_live(&mut self, events: &Events)
        ensures { self.new ≡ live_names events.now.list self.old }
    {
        for place in 0..self.by_name.len() {
            if let Some(list) = self.by_name.get_index_mut(place) {
                retain_live(list, events);
            }
        }
    }
}
