//! The events so far, with what is found in them.
ghost use Rattle.std.specs.Prelude.{◌≡◌, ◌∷◌, [], length, option_map, ◌+◌, ◌≤◌, ◌<◌, All, Err, IfOk, OnOk, OnErr};
ghost use Rattle.plain_model.specs.declared.event.PlainEvent.TheVariants as plain;
ghost use Rattle.plain_model.specs.Histories.{node_at, past};
ghost use Rattle.plain_model.specs.Snapshots.{refs};
ghost use Rattle.plain_model.specs.Streams.{is_marked, blob_marked, commit_marked};
ghost use Rattle.plain_model.specs.Trees.{at};
ghost use Rattle.stream_grammar.specs.Known.{history_of, next_id, with_event};
ghost use Rattle.stream_grammar.specs.Limits.{last_mark};
ghost use Rattle.stream_drafts.specs.Aliased.{finished};
ghost use Rattle.history_laws.specs.Placed.{ArePlaced};
ghost use Rattle.stream_drafts.specs.Whole.{IsMarked};
ghost use Rattle.stream_drafts.specs.Events.{
  commit_of,
  event_of,
  links_of,
  number_or_0,
};

use crate::aliases::Aliases;
use crate::draft::{CommitFields, Draft, Links};
use crate::finish::{FinishFault, greatest_of, marked_events};
use crate::grouping::grouped;
use crate::index::{make_tag_room, note_blob, note_commit, note_tag, note_tip};
use crate::marked_ids::MarkedIds;
use branch_tips::Tips;
use plain_model::{
    BlobId, CommitId, EventList, MAX_MARK, Mark, NoMemory, PassId, PlainEvent, ResetId, Shared,
    Signed, TagId, Text,
};
use std::alloc::Global;
use std::collections::HashSet;
use std::marker::Model;

/// The events that were read so far, each with its place from 1 as its id. Contracts see the plain list, in
/// which a blob or a commit that has no mark yet has 0, and a commit no aliases. It keeps its allocator, so
/// that its calls take none.
#[derive(Drop)]
pub struct Drafts {
    alloc: Global,
    drafts: Vec<Draft>,
    blobs: MarkedIds,
    commits: MarkedIds,
    tags: HashSet<u64>,
    tips: Tips,
    greatest: u64,
}

impl Model for Drafts {
    ghost use Rattle.std.specs.Prelude.{List, nat_eq};
    ghost use Rattle.std.specs.HashSet.{contains};
    ghost use Rattle.plain_model.specs.declared.event.PlainEvent.{PlainEvent};
    ghost use Rattle.stream_drafts.specs.Events.{events_of};
    ghost use Rattle.stream_drafts.specs.Indexed.{IsIndexed};
    ghost use Rattle.stream_drafts.specs.Rising.{AreApart, finds};

    ghost Value = { List PlainEvent };

    ghost view = { λ d. events_of d.drafts.items };

    ghost invariant = { λ d. IsIndexed (events_of d.drafts.items) (finds d.blobs) (finds d.commits)
        (contains nat_eq d.tags) d.tips d.greatest × (AreApart d.blobs × AreApart d.commits) };
}

impl Drafts {
    /// No events.
    pub fn new(alloc: Global) -> Drafts
        ensures { result ≡ [] }
    {
        Drafts {
            alloc,
            drafts: Vec::new(alloc),
            blobs: MarkedIds::new(alloc),
            commits: MarkedIds::new(alloc),
            tags: HashSet::new(alloc),
            tips: Tips::new(alloc),
            greatest: 0,
        }
    }

    /// The id of the next event, which is its place from 1.
    pub fn next_id(&self) -> u64
        ensures { result ≡ next_id self.now }
    {
        self.drafts.len() as u64 + 1
    }

    /// Whether an event has the mark.
    #[tactic(auto, using(crate::proofs::After::marked_by_kind, history_laws::proofs::GreatestMarks::above_is_new))]
    pub fn is_marked(&self, mark: Mark) -> bool
        ensures { result ≡ is_marked self.now mark }
    {
        // Mostly marks rise, so that no search does.
        if mark.number() > self.greatest {
            return false;
        }
        let blob = self.blob_marked(mark).is_some();
        let commit = self.commit_marked(mark).is_some();
        blob || commit || self.tags.contains(&mark.number())
    }

    /// The blob with the mark.
    pub fn blob_marked(&self, mark: Mark) -> Option<BlobId>
        ensures { result ≡ blob_marked self.now mark }
    {
        Some(BlobId::new(self.blobs.find(mark.number())?))
    }

    /// The commit with the mark.
    pub fn commit_marked(&self, mark: Mark) -> Option<CommitId>
        ensures { result ≡ commit_marked self.now mark }
    {
        Some(CommitId::new(self.commits.find(mark.number())?))
    }

    /// The commit on which the branch is.
    pub fn tip(&self, branch: &[u8]) -> Option<CommitId>
        ensures { result ≡ at (refs self.now) branch.now }
    {
        self.tips.tip(branch)
    }

    /// What the tree of the commit with the id hangs on, if there is one. Ids are places.
    pub fn commit(&self, id: CommitId) -> Option<Links<'_>>
        ensures placed { ArePlaced 1 self.now }
        ensures found { option_map (λ links. (links.parents.now, links.ops.now)) result
            ≡ option_map links_of (node_at (past self.now) id) }
    {
        let drafts = self.drafts.as_slice();
        let place = id.number().checked_sub(1)?;
        drafts.get(place as usize)?.links()
    }

    // Puts a draft at the end, whose id is its place. What can want memory comes first.
    fn push(&mut self, draft: Draft) -> Result<(), NoMemory>
        requires { ArePlaced (next_id self.old) (event_of draft ∷ []) }
        ensures ok { OnOk result (self.new ≡ with_event self.old (event_of draft)) }
        ensures err { OnErr result (self.new ≡ self.old) }
    {
        self.drafts.reserve(1)?;
        self.blobs.make_room()?;
        self.commits.make_room()?;
        make_tag_room(&mut self.tags)?;
        note_tip(&mut self.tips, &draft)?;
        note_blob(&mut self.blobs, &draft);
        note_commit(&mut self.commits, &draft);
        note_tag(&mut self.tags, &draft);
        self.greatest = self.greatest.max(draft.number());
        let pushed: Result<_, _> = self.drafts.push(draft);
        pushed.unwrap();
        Ok(())
    }

    /// Puts a blob at the end.
    pub fn push_blob(&mut self, mark: Option<Mark>, bytes: Shared<Text>) -> Result<BlobId, NoMemory>
        ensures ok { OnOk result (self.new ≡ with_event self.old
            (plain.Blob (next_id self.old) (number_or_0 mark) bytes)) }
        ensures id { IfOk result (λ id. id ≡ next_id self.old) }
        ensures err { OnErr result (self.new ≡ self.old) }
    {
        let id = BlobId::new(self.next_id());
        let draft = Draft::blob(self.alloc, id, mark, bytes)?;
        self.push(draft)?;
        Ok(id)
    }

    /// Puts a commit at the end. Its branch is on it from then on.
    pub fn push_commit(
        &mut self,
        mark: Option<Mark>,
        fields: CommitFields,
    ) -> Result<CommitId, NoMemory>
        ensures ok { OnOk result
            (self.new ≡ with_event self.old (commit_of (next_id self.old) mark fields)) }
        ensures id { IfOk result (λ id. id ≡ next_id self.old) }
        ensures err { OnErr result (self.new ≡ self.old) }
    {
        let id = CommitId::new(self.next_id());
        let draft = Draft::commit(self.alloc, id, mark, fields)?;
        self.push(draft)?;
        Ok(id)
    }

    /// Puts a tag at the end.
    pub fn push_tag(
        &mut self,
        name: Text,
        target: CommitId,
        tagger: Option<Signed>,
        comment: Text,
        mark: Option<Mark>,
    ) -> Result<TagId, NoMemory>
        ensures ok { OnOk result (self.new ≡ with_event self.old
            (plain.Tag (next_id self.old) name target tagger comment mark)) }
        ensures id { IfOk result (λ id. id ≡ next_id self.old) }
        ensures err { OnErr result (self.new ≡ self.old) }
    {
        let id = TagId::new(self.next_id());
        let tag = PlainEvent::Tag {
            id,
            name,
            target,
            tagger,
            comment,
            mark,
        };
        let draft = Draft::whole(self.alloc, tag)?;
        self.push(draft)?;
        Ok(id)
    }

    /// Puts a reset at the end. Its branch is on its target from then on, or is gone.
    pub fn push_reset(
        &mut self,
        branch: Shared<Text>,
        target: Option<CommitId>,
    ) -> Result<ResetId, NoMemory>
        ensures ok { OnOk result (self.new ≡ with_event self.old
            (plain.Reset (next_id self.old) branch target)) }
        ensures id { IfOk result (λ id. id ≡ next_id self.old) }
        ensures err { OnErr result (self.new ≡ self.old) }
    {
        let id = ResetId::new(self.next_id());
        let draft = Draft::whole(self.alloc, PlainEvent::Reset { id, branch, target })?;
        self.push(draft)?;
        Ok(id)
    }

    /// Puts a line at the end that is passed through as it is.
    pub fn push_pass(&mut self, line: Text) -> Result<PassId, NoMemory>
        ensures ok { OnOk result (self.new ≡ with_event self.old
            (plain.Pass (next_id self.old) line)) }
        ensures id { IfOk result (λ id. id ≡ next_id self.old) }
        ensures err { OnErr result (self.new ≡ self.old) }
    {
        let id = PassId::new(self.next_id());
        let draft = Draft::whole(self.alloc, PlainEvent::Pass { id, line })?;
        self.push(draft)?;
        Ok(id)
    }

    /// The history: each blob or commit without a mark gets the next one above the greatest, and each commit its aliases.
    pub fn finish(self, aliases: Aliases) -> Result<EventList, FinishFault>
        ensures history { IfOk result (λ list. list ≡ history_of (finished self aliases)) }
        ensures marked { IfOk result (All IsMarked) }

        // The marks are spent only where fewer are left than there are blobs and commits without one.
        ensures fits { OnOk result (last_mark (finished self aliases) ≤ MAX_MARK) }
        ensures spent { result ≡ Err FinishFault.MarksSpent →
            MAX_MARK < last_mark (finished self aliases) }
    {
        let Drafts {
            alloc,
            drafts,
            blobs,
            commits,
            tags,
            tips,
            greatest,
        } = self;
        // They give their memory back before the history takes its own.
        drop(blobs);
        drop(commits);
        drop(tags);
        drop(tips);
        let aliases = aliases.into_list();
        let greatest = greatest_of(greatest, aliases.as_slice());
        let groups = grouped(alloc, aliases.as_slice())?;
        drop(aliases);
        marked_events(alloc, drafts, &groups, greatest)
    }
}
