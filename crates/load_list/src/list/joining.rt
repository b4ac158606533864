//! Another repository is taken into the chosen one.
ghost use Rattle.std.specs.Prelude.{◌≡◌, IfOk, OnErr, OnOk};
ghost use Rattle.event_sets.specs.Once.{IsOnce};
ghost use Rattle.history_machine.specs.Sessions.{with_remade, with_repo};
ghost use Rattle.history_machine.specs.Several.{
  after_joining,
  grafted_with,
};
ghost use Rattle.manifest_cache.specs.Kept.{AgreesWith};
ghost use Rattle.plain_model.specs.Faults.{Returns};
ghost use Rattle.load_list.specs.Entries.{AreLiveIn, made_by};
ghost use Rattle.load_list.specs.Lists.{
  Carried,
  Changes,
  IfChosen,
  IsChosenAt,
  IsPlanFor,
  Joins,
  PlansGraft,
  chosen_in,
};

use super::LoadList;
use crate::faults::not_there;
use event_arena::Plan;
use manifest_cache::Manifests;
use plain_model::{AnyId, Halt, NoMemory};

impl LoadList {
    // The trees that are kept of the chosen repository, which keeps none meanwhile.
    fn take_trees(&mut self, place: usize) -> Result<Manifests, NoMemory>
        requires { IsChosenAt self.old place }
        ensures agrees { IfOk result
            (λ trees. IfChosen (λ repo. AgreesWith repo.history trees) self.old) }
        ensures same { self.new ≡ self.old }
    {
        self.by_name[place].take_trees()
    }

    // The chosen repository keeps such trees.
    fn give_trees(&mut self, place: usize, trees: Manifests)
        requires at { IsChosenAt self.old place }
        requires agrees { IfChosen (λ repo. AgreesWith repo.history trees) self.old }
        ensures { self.new ≡ self.old }
    {
        self.by_name[place].give_trees(trees);
    }

    // The plan by which the repository of a name is grafted on the chosen one.
    fn plan_graft(
        &self,
        place: usize,
        name: &[u8],
        ids: &[AnyId],
        prune: bool,
        trees: &mut Manifests,
    ) -> Result<Plan, Halt>
        requires at { IsChosenAt self.now place }
        requires once { IsOnce ids.now }
        requires live { AreLiveIn (chosen_in self.now) ids.now }
        requires agrees { IfChosen (λ repo. AgreesWith repo.history trees.old) self.now }
        ensures plans { IfChosen (PlansGraft prune name.now ids.now self.now.repos result) self.now }
        ensures fits { IfOk result (λ plan. IfChosen (λ repo. IsPlanFor repo plan) self.now) }
        ensures agrees { IfChosen (λ repo. AgreesWith repo.history trees.new) self.now }
    {
        let (chosen, base) = self.by_name.get_index(place).unwrap();
        if name == chosen.as_slice() {
            return Err(Halt::Refused(not_there(self.alloc, name)?));
        }
        match self.by_name.get(name) {
            Some(part) => base.plan_graft(trees, name, part, ids, prune),
            None => Err(Halt::Refused(not_there(self.alloc, name)?)),
        }
    }

    // Carries out a plan of the chosen repository.
    fn carry_out(&mut self, place: usize, plan: Plan) -> Result<(), NoMemory>
        requires at { IsChosenAt self.old place }
        requires fits { IfChosen (λ repo. IsPlanFor repo plan) self.old }
        ensures ok { OnOk result (IfChosen (λ repo. self.new ≡ record self.old {
          repos = with_repo (with_remade repo (made_by plan)) self.old.repos;
        }) self.old) }
        ensures err { OnErr result (self.new ≡ self.old) }
    {
        self.by_name[place].carry_out(plan)
    }

    // Carries out a plan of the chosen repository, if there is one.
    fn carry(&mut self, place: usize, plan: Result<Plan, Halt>) -> Result<(), Halt>
        requires at { IsChosenAt self.old place }
        requires fits { IfOk plan (λ plan. IfChosen (λ repo. IsPlanFor repo plan) self.old) }
        ensures carried { IfChosen (Carried plan result self.old self.new) self.old }
        ensures kept { OnErr result (self.new ≡ self.old) }
    {
        match plan {
            Ok(plan) => Ok(self.carry_out(place, plan)?),
            Err(halt) => Err(halt),
        }
    }

    // Grafts the repository of a name on a commit of the chosen one.
    fn join(&mut self, place: usize, name: &[u8], ids: &[AnyId], prune: bool) -> Result<(), Halt>
        requires at { IsChosenAt self.old place }
        requires once { IsOnce ids.now }
        requires live { AreLiveIn (chosen_in self.old) ids.now }
        ensures joins { IfChosen
            (Joins (λ part. grafted_with prune part ids.now) name.now result self.old self.new) self.old }
        ensures kept { OnErr result (self.new ≡ self.old) }
    {
        let mut trees = self.take_trees(place)?;
        let plan = self.plan_graft(place, name, ids, prune, &mut trees);
        self.give_trees(place, trees);
        self.carry(place, plan)
    }

    /// Grafts the repository of a name on a commit of the chosen one, and forgets it. It leaves the list only after the plan
    /// and all memory for it are there.
    #[tactic(auto, unfolding(history_machine::specs::Several::after_joining, history_machine::specs::Sessions::chosen))]
    pub fn graft(&mut self, name: &[u8], ids: &[AnyId], prune: bool) -> Result<(), Halt>
        requires once { IsOnce ids.now }
        requires live { AreLiveIn (chosen_in self.old) ids.now }
        ensures changes { Changes
            (λ s. after_joining s name.now (λ part. grafted_with prune part ids.now)) self.old result
            self.new }
        ensures kept { OnErr result (self.new ≡ self.old) }
    {
        let place = self.chosen_place()?;
        self.join(place, name, ids, prune)?;
        self.remove(name);
        Ok(())
    }
}
