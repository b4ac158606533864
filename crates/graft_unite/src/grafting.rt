//! The plan of a graft.
ghost use Rattle.std.specs.Prelude.{◌≡◌, ◌≤◌, ◌<◌, ◌+◌, ◌^◌, ◌∷◌, [], length, IfOk};
ghost use Rattle.edit_laws.specs.Selecting.{IsSelection};
ghost use Rattle.event_arena.specs.Plans.{Plans, leaving};
ghost use Rattle.graft_laws.specs.Graft.{graft_of, grafted};
ghost use Rattle.graft_laws.specs.Joined.{AreNameBytes};
ghost use Rattle.graft_laws.specs.Joining.{without_passes};
ghost use Rattle.manifest_cache.specs.Kept.{AgreesWith};
ghost use Rattle.plain_model.specs.Lookups.{greatest_mark, marks_of};
ghost use Rattle.plain_model.specs.Soundness.{IsCommitOf};
ghost use Rattle.plain_model.specs.declared.id.AnyId.TheVariants.{Commit};
ghost use Rattle.plain_model.specs.declared.limit.TheConstants.{MAX_MARK};

use crate::appending::append_part;
use crate::clashes::name_fault;
use crate::joining::Join;
use crate::limits::{judge, mark_behind};
use crate::part::Part;
use crate::used::Names;
use event_arena::{Events, Plan};
use graft_laws::a_graft_keeps_soundness;
use manifest_cache::Manifests;
use plain_model::{AnyId, CommitId, Fault, Halt, MAX_MARK, NoMemory, ParentList};
use plan_steps::the_commit;
use std::alloc::Global;
use std::marker::Model;

// All names go below one, where none that is used may be given, and each root is on one commit.
#[derive(Drop)]
struct Grafting<'a> {
    prefix: &'a [u8],
    used: &'a Names,
    commit: CommitId,
    prune: bool,
}

impl<'a> Model for Grafting<'a> {
    ghost use Rattle.graft_unite.specs.Grafting.{Grafting};

    ghost Value = { Grafting };

    ghost view = { λ g. record {
      prune = g.prune;
      prefix = g.prefix.now;
      used = g.used.now;
      commit = g.commit;
    } };
}

impl<'a> Join for Grafting<'a> {
    ghost use Rattle.std.specs.Prelude.{bytes_eq};
    ghost use Rattle.std.specs.List.{list_any};
    ghost use Rattle.graft_laws.specs.Graft.{grafting};

    ghost joining = { λ g. grafting g.prune g.prefix g.commit };

    ghost clashing = { λ g name. list_any (bytes_eq name) g.used };

    fn prefix(&self) -> &[u8] {
        self.prefix
    }

    fn is_taken(&self, _name: &[u8]) -> bool {
        true
    }

    fn clashes(&self, name: &[u8]) -> bool {
        self.used.has(name)
    }

    fn parents(&self, alloc: Global, _seconds: u64) -> Result<ParentList, NoMemory> {
        ParentList::of(alloc, &[self.commit])
    }

    fn prunes(&self) -> bool {
        self.prune
    }
}

// How a part is joined that is put on a commit.
fn grafting_on<'a>(prefix: &'a [u8], used: &'a Names, commit: CommitId, prune: bool) -> Grafting<'a>
    ensures { result
        ≡ record { prune = prune; prefix = prefix.now; used = used.now; commit = commit } }
{
    Grafting {
        prefix,
        used,
        commit,
        prune,
    }
}

// The mark above the greatest of a history. The last mark of all may be that.
fn mark_above(events: &Events) -> u64
    ensures mark { result ≡ greatest_mark events.now.list + 1 }
    ensures low { result ≤ MAX_MARK + 1 }
{
    match events.fresh_mark() {
        Some(mark) => mark.number(),
        None => MAX_MARK + 1,
    }
}

// The plan of a graft, whatever else is wrong with it.
fn grafted(
    alloc: Global,
    base: &Events,
    part: &Part,
    how: &Grafting,
    mark: u64,
) -> Result<Plan, NoMemory>
    requires mark { mark ≡ greatest_mark base.now.list + 1 }
    requires fits { mark + length (marks_of part.now.events) ≤ MAX_MARK + 1 }
    requires room { base.now.next_id + length part.now.events < 2 ^ 63 }
    requires prefix { how.now.prefix ≡ part.now.name }
    ensures { IfOk result (λ plan. plan ≡ record (leaving base.now
        (grafted how.now.prune base.now.next_id part.now.name part.now.events how.now.commit base.now.list)) {
          next = base.now.next_id + length (without_passes part.now.events);
        }) }
{
    let first = base.next_id();
    let mut plan = Plan::new(alloc, base)?;
    append_part(alloc, how, part.events(), first, mark, &mut plan)?;
    Ok(plan)
}

// The plan of a graft on a commit.
fn graft_on(
    alloc: Global,
    base: &Events,
    manifests: &mut Manifests,
    commit: CommitId,
    part: &Part,
    prune: bool,
) -> Result<Plan, Halt>
    requires agrees { AgreesWith base.now.list manifests.old }
    requires there { IsCommitOf base.now.list commit }
    requires name { AreNameBytes part.now.name }
    requires room { base.now.next_id + length part.now.events < 2 ^ 63 }
    ensures plans { Plans base.now (base.now.next_id + length (without_passes part.now.events)) result
        (graft_of prune base.now.next_id part.now.name part.now.events (Commit commit ∷ []) base.now.list) }
    ensures kept { manifests.new ≡ manifests.old }
{
    let _count = base.count();
    let _next = base.next_id();
    let _part = part.events().count();
    let used = Names::of(alloc, base)?;
    let how = grafting_on(part.name(), &used, commit, prune);
    if let Some(fault) = name_fault(alloc, &how, part.events())? {
        return Err(Halt::Refused(fault));
    }
    let mark = mark_above(base);
    let Some(_) = mark_behind(part.events(), mark) else {
        return Err(Halt::Refused(Fault::MarksSpent));
    };
    let plan = grafted(alloc, base, part, &how, mark)?;
    match judge(manifests, &plan, prune) {
        Ok(()) => {
            a_graft_keeps_soundness();
            Ok(plan)
        }
        Err(halt) => Err(halt),
    }
}

/// The plan that puts the history of another repository behind this one, and its roots on the one commit of a selection. All but
/// lines that are passed through come, in their order, under new ids; their marks go on from the greatest, and names of branches
/// and tags are put below that of the repository. With `prune` a root begins without files. Refused where it isn't one commit,
/// by the first new name that is in use here, by want of marks, by the first limit that is passed, and without `prune` by the
/// first operation that a tree refuses. (reposurgeon manual, `graft`.)
pub fn graft(
    alloc: Global,
    base: &Events,
    manifests: &mut Manifests,
    set: &[AnyId],
    part: &Part,
    prune: bool,
) -> Result<Plan, Halt>
    requires agrees { AgreesWith base.now.list manifests.old }
    requires selection { IsSelection base.now.list set.now }
    requires name { AreNameBytes part.now.name }
    requires room { base.now.next_id + length part.now.events < 2 ^ 63 }
    ensures plans { Plans base.now (base.now.next_id + length (without_passes part.now.events)) result
        (graft_of prune base.now.next_id part.now.name part.now.events set.now base.now.list) }
    ensures kept { manifests.new ≡ manifests.old }
{
    match the_commit(base, set) {
        Ok(commit) => graft_on(alloc, base, manifests, commit, part, prune),
        Err(fault) => Err(Halt::Refused(fault)),
    }
}
