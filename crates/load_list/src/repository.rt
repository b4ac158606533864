//! A loaded history, with what is kept of it.
ghost use Rattle.std.specs.Prelude.{◌≡◌, ◌<◌, ◌≤◌, ◌^◌, [], Ok, length, IfOk, OnErr, OnOk};
ghost use Rattle.byte_patterns.specs.Judging.{Judges};
ghost use Rattle.coalesce_laws.specs.Coalesce.{coalesce_of};
ghost use Rattle.event_sets.specs.Once.{AreLive, IsOnce};
ghost use Rattle.edit_laws.specs.Editing.{with_number};
ghost use Rattle.edit_laws.specs.Selecting.{IsSelection};
ghost use Rattle.history_machine.specs.Sessions.{
  edited,
  remade,
  said_by,
  shown,
  stands_for,
  with_remade,
  without_paths,
};
ghost use Rattle.people_laws.specs.Values.{set_field_of};
ghost use Rattle.plain_model.specs.Faults.{Returns};
ghost use Rattle.graft_laws.specs.Joined.{AreNameBytes};
ghost use Rattle.history_machine.specs.Several.{grafted_with, halves_of};
ghost use Rattle.manifest_cache.specs.Kept.{AgreesWith};
ghost use Rattle.plain_model.specs.Lookups.{AreIdsBelow, next_number};
ghost use Rattle.plain_model.specs.Soundness.{IsSound};
ghost use Rattle.renumbering.specs.Renumbered.{renumbered};
ghost use Rattle.selection_eval.specs.Given.{AreNamesOnce};
ghost use Rattle.selection_eval.specs.Names.{live_names};
ghost use Rattle.selection_parser.specs.Reading.{selection_at};
ghost use Rattle.load_list.specs.Entries.{made_by, repo_under, with_given};

use crate::path_words::path_of;
use byte_patterns::Patterns;
use coalesce_simplify::{coalesce, simplify};
use divide_laws::nothing_is_added;
use empty_commits::tagify;
use event_arena::{Events, Plan};
use event_fields::FieldValue;
use graft_unite::{Part, graft};
use listing::{index, list, manifest, resolve, stamp};
use mailbox_edit::msgin;
use mailbox_writer::msgout;
use manifest_cache::Manifests;
use path_expunge::{Matcher, expunge};
use path_move_laws::PathMap;
use path_moves::map_paths;
use people_edit::{authors, set_field, time_offset};
use plain_model::{AnyId, Fault, Halt, IdList, Items, NoMemory, Text};
use renumbering::renumber;
use reparent_laws::Removal;
use reparent_rebase::{add_op, merge, remove_op, reparent, unmerge};
use repo_divide::divide;
use script_reader::{Edit, FileEdit, Listing, WrittenSelection};
use selection_eval::{
    Names, eval, selections_are_live, selections_are_without_repeats, sound_histories_are_such,
};
use split_reorder::{reorder, split_at, split_by};
use squash_delete::squash;
use std::alloc::Global;
use std::marker::Model;
use std::mem::replace;

/// A loaded history, with the lists of its events that have names, none of which has an event twice. Trees of its commits are kept besides, and what is shown of
/// them doesn't depend on which.
#[derive(Drop)]
pub struct Repository {
    alloc: Global,
    events: Events,
    manifests: Manifests,
    names: Names,
}

impl Model for Repository {
    ghost use Rattle.manifest_cache.specs.Kept.{AgreesWith};
    ghost use Rattle.selection_eval.specs.Given.{AreNamesOnce};
    ghost use Rattle.load_list.specs.Entries.{Loaded};

    ghost Value = { Loaded };

    ghost view = { λ r. record {
      history = r.events.list;
      next = r.events.next_id;
      names = r.names;
    } };

    ghost invariant = { λ r. AgreesWith r.events.list r.manifests × AreNamesOnce r.names };
}

impl Repository {
    /// A history under whose names are these lists.
    pub fn with_names(alloc: Global, events: Events, names: Names) -> Result<Repository, NoMemory>
        requires { AreNamesOnce names }
        ensures { IfOk result (λ made. made
            ≡ record { history = events.list; next = events.next_id; names = names }) }
    {
        Ok(Repository {
            alloc,
            events,
            manifests: Manifests::new(alloc)?,
            names,
        })
    }

    /// A history that has just been read.
    pub fn of(alloc: Global, events: Events) -> Result<Repository, NoMemory>
        ensures { IfOk result (λ made. made
            ≡ record { history = events.list; next = events.next_id; names = [] }) }
    {
        Repository::with_names(alloc, events, Names::new(alloc))
    }

    /// The history.
    pub fn events(&self) -> &Events
        ensures { result.now.list ≡ self.now.history }
    {
        &self.events
    }

    /// The events for which a selection stands, each once.
    pub fn denoted<P: Patterns>(
        &mut self,
        selection: &WrittenSelection,
        patterns: &mut P,
    ) -> Result<IdList, Halt>
        ensures judged { (name : _) → Judges (λ ids. ids) (P.sizes patterns.old)
            (P.sizes patterns.new) result
            (stands_for (repo_under name self.old) (selection_at selection.now)) }
        ensures once { IfOk result IsOnce }
        ensures live { IfOk result (AreLive self.old.history) }
        ensures same { self.new ≡ self.old }
        ensures grows { P.sizes patterns.old ≤ P.sizes patterns.new }
    {
        let _count = self.events.count();
        sound_histories_are_such();
        selections_are_without_repeats();
        selections_are_live();
        eval(
            self.alloc,
            selection.selection(),
            &self.events,
            &mut self.manifests,
            &self.names,
            patterns,
        )
    }

    /// A text of some of its events.
    pub fn shown(&mut self, what: Listing, ids: &[AnyId]) -> Result<Text, NoMemory>
        ensures text { (name : _) → IfOk result
            (λ text. text ≡ shown what ids.now (repo_under name self.old)) }
        ensures same { self.new ≡ self.old }
    {
        let mut text = Items::new(self.alloc)?;
        match what {
            Listing::List => list(&self.events, ids, &mut text)?,
            Listing::Index => index(&self.events, ids, &mut text)?,
            Listing::Stamp => stamp(&self.events, ids, &mut text)?,
            Listing::Resolve => resolve(&self.events, ids, &mut text)?,
            Listing::Manifest => manifest(&self.events, &mut self.manifests, ids, &mut text)?,
            Listing::Messages => msgout(&self.events, ids, &mut text)?,
        }
        Ok(text)
    }

    /// Gives the marks anew, or leaves all as it was.
    pub fn renumber(&mut self) -> Result<(), NoMemory>
        ensures ok { OnOk result
            (self.new ≡ record self.old { history = renumbered self.old.history }) }
        ensures err { OnErr result (self.new ≡ self.old) }
    {
        let plan = renumber(self.alloc, &self.events)?;
        self.events.reserve_for(&plan)?;
        self.manifests.follow(&plan);
        self.events.carry_out(plan);
        Ok(())
    }

    // That numbers are left for new events. There are 2^62, more than a session can ever give, so that their end counts
    // as that of memory.
    fn has_numbers(&self) -> Result<(), NoMemory>
        ensures numbers { OnOk result (self.now.next < 2 ^ 62) }
        ensures spent { AreIdsBelow self.now.next self.now.history }
    {
        if self.events.next_id() < 1 << 62 {
            Ok(())
        } else {
            Err(NoMemory)
        }
    }

    // That as many numbers can be given as it has events, in the same sense.
    fn has_few_events(&self) -> Result<(), NoMemory>
        ensures { OnOk result (length self.now.history < 2 ^ 62) }
    {
        if (self.events.count() as u64) < 1 << 62 {
            Ok(())
        } else {
            Err(NoMemory)
        }
    }

    // The plan of a coalesce, which is never refused.
    fn coalesced(&self, seconds: u64, ids: &[AnyId]) -> Result<Plan, Halt>
        ensures plans { Returns made_by result
            (with_number self.now.next (Ok (coalesce_of seconds ids.now self.now.history))) }
        ensures before { IfOk result (λ plan. plan.before ≡ self.now.history) }
        ensures made_at { IfOk result (λ plan. plan.made_at ≡ self.now.next) }
        ensures sound { IfOk result (λ plan. IsSound plan.after) }
    {
        match coalesce(self.alloc, &self.events, ids, seconds) {
            Ok(plan) => Ok(plan),
            Err(NoMemory) => Err(Halt::Memory),
        }
    }

    // The plan by which a field is set, which is never refused.
    fn field_set(&self, value: &FieldValue, ids: &[AnyId]) -> Result<Plan, Halt>
        ensures plans { Returns made_by result
            (with_number self.now.next (Ok (set_field_of value.now ids.now self.now.history))) }
        ensures before { IfOk result (λ plan. plan.before ≡ self.now.history) }
        ensures made_at { IfOk result (λ plan. plan.made_at ≡ self.now.next) }
        ensures sound { IfOk result (λ plan. IsSound plan.after) }
    {
        match set_field(self.alloc, &self.events, ids, value) {
            Ok(plan) => Ok(plan),
            Err(NoMemory) => Err(Halt::Memory),
        }
    }

    // The plan of an edit of some of its events.
    fn plan_of(&mut self, what: &Edit, ids: &[AnyId]) -> Result<Plan, Halt>
        requires selection { IsSelection self.old.history ids.now }
        ensures plans { Returns made_by result
            (remade what.now ids.now self.old.next self.old.history) }
        ensures before { IfOk result (λ plan. plan.before ≡ self.old.history) }
        ensures made_at { IfOk result (λ plan. plan.made_at ≡ self.old.next) }
        ensures sound { IfOk result (λ plan. IsSound plan.after) }
        ensures same { self.new ≡ self.old }
    {
        match what {
            Edit::Squash(how) => squash(self.alloc, &self.events, &mut self.manifests, ids, *how),
            Edit::SplitAt(number) => {
                self.has_numbers()?;
                split_at(self.alloc, &self.events, ids, *number)
            }
            Edit::SplitBy(text) => {
                let path = path_of(self.alloc, text.as_bytes())?;
                self.has_numbers()?;
                split_by(self.alloc, &self.events, ids, &path)
            }
            Edit::Reorder => reorder(self.alloc, &self.events, &mut self.manifests, ids),
            Edit::Reparent(how) => reparent(
                self.alloc,
                &self.events,
                &mut self.manifests,
                ids,
                how.use_order,
                how.rebase,
            ),
            Edit::Merge => merge(self.alloc, &self.events, ids),
            Edit::Unmerge => unmerge(self.alloc, &self.events, ids),
            Edit::Add(op) => add_op(
                self.alloc,
                &self.events,
                &mut self.manifests,
                ids,
                op.as_op(),
            ),
            Edit::Coalesce(seconds) => self.coalesced(*seconds, ids),
            Edit::Simplify => simplify(self.alloc, &self.events, &mut self.manifests, ids),
            Edit::RemoveAt(number) => {
                let what = Removal::Index(*number);
                remove_op(self.alloc, &self.events, &mut self.manifests, ids, &what)
            }
            Edit::RemoveBy(text) => {
                let what = Removal::At(path_of(self.alloc, text.as_bytes())?);
                remove_op(self.alloc, &self.events, &mut self.manifests, ids, &what)
            }
            Edit::PathRename { source, target } => {
                let source = path_of(self.alloc, source.as_bytes())?;
                let target = path_of(self.alloc, target.as_bytes())?;
                let map = PathMap::Rename { source, target };
                map_paths(self.alloc, &self.events, &mut self.manifests, &map)
            }
            Edit::PathsSub(text) => {
                let map = PathMap::Sub(path_of(self.alloc, text.as_bytes())?);
                map_paths(self.alloc, &self.events, &mut self.manifests, &map)
            }
            Edit::PathsSup(text) => {
                let map = PathMap::Sup(path_of(self.alloc, text.as_bytes())?);
                map_paths(self.alloc, &self.events, &mut self.manifests, &map)
            }
            Edit::TimeOffset { seconds, zone } => {
                time_offset(self.alloc, &self.events, ids, *seconds, *zone)
            }
            Edit::SetField(value) => self.field_set(value, ids),
            Edit::Tagify => {
                self.has_numbers()?;
                tagify(self.alloc, &self.events, ids)
            }
        }
    }

    /// Carries out a plan, or leaves all as it was. Lists under names keep the events that are still there.
    pub fn carry_out(&mut self, plan: Plan) -> Result<(), NoMemory>
        requires before { plan.before ≡ self.old.history }
        requires made_at { plan.made_at ≡ self.old.next }
        requires sound { IsSound plan.after }
        ensures ok { (name : _) → OnOk result
            (repo_under name self.new ≡ with_remade (repo_under name self.old) (made_by plan)) }
        ensures err { OnErr result (self.new ≡ self.old) }
    {
        self.events.reserve_for(&plan)?;
        self.manifests.follow(&plan);
        self.events.carry_out(plan);
        self.names.keep_live(&self.events);
        Ok(())
    }

    /// Edits some of its events, or leaves all as it was.
    pub fn edit(&mut self, what: &Edit, ids: &[AnyId]) -> Result<(), Halt>
        requires once { IsOnce ids.now }
        requires live { AreLive self.old.history ids.now }
        ensures returns { (name : _) → Returns (λ _. repo_under name self.new) result
            (edited (remade what.now ids.now) (repo_under name self.old)) }
        ensures err { OnErr result (self.new ≡ self.old) }
    {
        let plan = self.plan_of(what, ids)?;
        Ok(self.carry_out(plan)?)
    }

    // The plan of an expunge.
    fn plan_without(&mut self, matchers: &[Matcher]) -> Result<Plan, Halt>
        ensures plans { Returns made_by result
            (without_paths matchers.now self.old.next self.old.history) }
        ensures before { IfOk result (λ plan. plan.before ≡ self.old.history) }
        ensures made_at { IfOk result (λ plan. plan.made_at ≡ self.old.next) }
        ensures sound { IfOk result (λ plan. IsSound plan.after) }
        ensures same { self.new ≡ self.old }
    {
        expunge(self.alloc, &self.events, &mut self.manifests, matchers)
    }

    /// Takes the matched paths out of its history, or leaves all as it was.
    pub fn expunge(&mut self, matchers: &[Matcher]) -> Result<(), Halt>
        ensures returns { (name : _) → Returns (λ _. repo_under name self.new) result
            (edited (without_paths matchers.now) (repo_under name self.old)) }
        ensures err { OnErr result (self.new ≡ self.old) }
    {
        let plan = self.plan_without(matchers)?;
        Ok(self.carry_out(plan)?)
    }

    // The plan of an edit that the lines of a file say.
    fn plan_said(&self, what: FileEdit, bytes: &[u8]) -> Result<Plan, Halt>
        ensures plans { Returns made_by result
            (said_by what bytes.now self.now.next self.now.history) }
        ensures before { IfOk result (λ plan. plan.before ≡ self.now.history) }
        ensures made_at { IfOk result (λ plan. plan.made_at ≡ self.now.next) }
        ensures sound { IfOk result (λ plan. IsSound plan.after) }
    {
        match what {
            FileEdit::Messages => msgin(self.alloc, &self.events, bytes),
            FileEdit::Authors => authors(self.alloc, &self.events, bytes),
        }
    }

    /// Edits its history as the lines of a file say, or leaves all as it was.
    pub fn edit_by(&mut self, what: FileEdit, bytes: &[u8]) -> Result<(), Halt>
        ensures returns { (name : _) → Returns (λ _. repo_under name self.new) result
            (edited (said_by what bytes.now) (repo_under name self.old)) }
        ensures err { OnErr result (self.new ≡ self.old) }
    {
        let plan = self.plan_said(what, bytes)?;
        Ok(self.carry_out(plan)?)
    }

    /// The trees that are kept. None is kept from then on, until some are given back.
    pub fn take_trees(&mut self) -> Result<Manifests, NoMemory>
        ensures agrees { IfOk result (AgreesWith self.old.history) }
        ensures same { self.new ≡ self.old }
    {
        let none = Manifests::new(self.alloc)?;
        Ok(replace(&mut self.manifests, none))
    }

    /// Keeps such trees.
    pub fn give_trees(&mut self, trees: Manifests)
        requires { AgreesWith self.old.history trees }
        ensures { self.new ≡ self.old }
    {
        self.manifests = trees;
    }

    /// The plan by which another one is grafted, with trees of this history.
    pub fn plan_graft(
        &self,
        trees: &mut Manifests,
        name: &[u8],
        part: &Repository,
        ids: &[AnyId],
        prune: bool,
    ) -> Result<Plan, Halt>
        requires once { IsOnce ids.now }
        requires live { AreLive self.now.history ids.now }
        requires named { AreNameBytes name.now }
        requires agrees { AgreesWith self.now.history trees.old }
        ensures plans { Returns made_by result
            (grafted_with prune (repo_under name.now part.now) ids.now self.now.next self.now.history) }
        ensures before { IfOk result (λ plan. plan.before ≡ self.now.history) }
        ensures made_at { IfOk result (λ plan. plan.made_at ≡ self.now.next) }
        ensures sound { IfOk result (λ plan. IsSound plan.after) }
        ensures agrees { AgreesWith self.now.history trees.new }
    {
        self.has_numbers()?;
        part.has_few_events()?;
        let part = Part::new(name, part.events());
        graft(self.alloc, &self.events, trees, ids, &part, prune)
    }

    /// Both halves of its history, if it can be divided.
    pub fn halves(&mut self, ids: &[AnyId]) -> Result<(Events, Events), Halt>
        requires once { IsOnce ids.now }
        requires live { AreLive self.old.history ids.now }
        ensures returns { Returns (λ both. (both.0.list, both.1.list)) result
            (halves_of ids.now self.old.history) }
        ensures early { IfOk result (λ both. both.0.next_id ≡ next_number both.0.list) }
        ensures late { IfOk result (λ both. both.1.next_id ≡ next_number both.1.list) }
        ensures same { self.new ≡ self.old }
    {
        self.has_numbers()?;
        nothing_is_added();
        let halves = divide(self.alloc, &self.events, &mut self.manifests, ids)?;
        let early = Events::from_plain(self.alloc, halves.early)?;
        let late = Events::from_plain(self.alloc, halves.late)?;
        Ok((early, late))
    }

    /// Its lists under names, with only those ids that are events of its history.
    pub fn live_names(&self) -> Result<Names, NoMemory>
        ensures names { IfOk result
            (λ names. names ≡ live_names self.now.history self.now.names) }
        ensures once { IfOk result AreNamesOnce }
    {
        self.names.live_copy(self.alloc, &self.events)
    }

    /// Gives a list of events a name, unless another has it.
    pub fn assign(&mut self, given: &[u8], ids: &[AnyId]) -> Result<(), Halt>
        requires { IsOnce ids.now }
        ensures returns { (name : _) → Returns (λ _. repo_under name self.new) result
            (with_given given.now ids.now (repo_under name self.old)) }
        ensures err { OnErr result (self.new ≡ self.old) }
    {
        let text = Items::of(self.alloc, given)?;
        if self.names.get(given).is_some() {
            return Err(Halt::Refused(Fault::NameAssigned { name: text }));
        }
        let list = Items::of(self.alloc, ids)?;
        Ok(self.names.assign(text, list)?)
    }
}
