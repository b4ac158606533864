//! The links from each place of a list to the children of the commit that is there.
ghost use Rattle.std.specs.Iterator.{YieldsFirst, item_count};
ghost use Rattle.std.specs.Prelude.{
  ◌≡◌,
  ◌≤◌,
  ◌<◌,
  ◌+◌,
  ◌∷◌,
  ◌++◌,
  [],
  length,
  slice_index_or,
  slice_set,
  true,
  None,
  OnOk,
};
ghost use Rattle.event_arena.specs.LinkPlaces.{last_of};

use plain_model::{CommitId, NoMemory};
use std::alloc::Global;
use std::marker::Model;

/// The place of a link, or none. It is kept as the number of links up to that one, so that it takes half the room of an
/// option.
#[derive(Clone, Copy)]
pub struct LinkAt {
    count: usize,
}

impl Model for LinkAt {
    ghost use Rattle.std.specs.Prelude.{ℕ, Option};
    ghost use Rattle.event_arena.specs.LinkPlaces.{count_to, last_of};

    ghost Value = { Option ℕ };

    ghost view = { λ l. last_of l.count };

    ghost inverse = { λ place. record { count = count_to place } };
}

impl LinkAt {
    fn none() -> LinkAt
        ensures { result ≡ None }
    {
        LinkAt { count: 0 }
    }

    // The last of so many links.
    fn last_of(count: usize) -> LinkAt
        ensures { result ≡ last_of count }
    {
        LinkAt { count }
    }

    fn place(self) -> Option<usize>
        ensures { result ≡ self }
    {
        self.count.checked_sub(1)
    }
}

/// A child, and the place of the link to the next child of the same commit. That link is older.
#[derive(Clone, Copy)]
pub struct Link {
    child: CommitId,
    next: LinkAt,
}

/// For each place of a list the children of the commit there, and room for more places and children.
#[derive(Drop)]
pub struct Links {
    // For each place its youngest link.
    heads: Vec<LinkAt>,
    links: Vec<Link>,
}

impl Model for Links {
    ghost use Rattle.event_arena.specs.Families.{Families};

    ghost Value = { Families };

    ghost use Rattle.event_arena.specs.Chains.{families, AreChains};

    ghost view = { families };

    ghost invariant = { AreChains };
}

impl Links {
    pub fn new(alloc: Global) -> Links
        ensures { result.lists ≡ [] }
    {
        Links {
            heads: Vec::new(alloc),
            links: Vec::new(alloc),
        }
    }

    /// Makes room for so many places and so many children, those that are there included.
    pub fn reserve(&mut self, places: usize, links: usize) -> Result<(), NoMemory>
        ensures lists { self.new.lists ≡ self.old.lists }
        ensures used { self.new.used ≡ self.old.used }
        ensures ok { OnOk result ((places ≤ self.new.place_room) × (links ≤ self.new.link_room)) }
        ensures place_room { self.old.place_room ≤ self.new.place_room }
        ensures link_room { self.old.link_room ≤ self.new.link_room }
    {
        let more_places = places.saturating_sub(self.heads.len());
        self.heads.reserve(more_places)?;
        let more_links = links.saturating_sub(self.links.len());
        self.links.reserve(more_links)?;
        Ok(())
    }

    /// How many places there are.
    pub fn places(&self) -> usize
        ensures { result ≡ length self.now.lists }
    {
        self.heads.len()
    }

    /// Forgets all children, and keeps the places and the room.
    pub fn clear(&mut self)
        ensures places { length self.new.lists ≡ length self.old.lists }
        ensures empty { (k : _) → slice_index_or self.new.lists k [] ≡ [] }
        ensures used { self.new.used ≡ 0 }
        ensures place_room { self.new.place_room ≡ self.old.place_room }
        ensures link_room { self.new.link_room ≡ self.old.link_room }
    {
        self.heads.fill(LinkAt::none());
        self.links.clear();
    }

    /// Puts a place without children at the end.
    pub fn add_place(&mut self)
        requires { length self.old.lists < self.old.place_room }
        ensures lists { self.new.lists ≡ self.old.lists ++ [] ∷ [] }
        ensures used { self.new.used ≡ self.old.used }
        ensures place_room { self.new.place_room ≡ self.old.place_room }
        ensures link_room { self.new.link_room ≡ self.old.link_room }
    {
        self.heads.push_reserved(LinkAt::none());
    }

    /// Puts a child before the others of a place.
    pub fn add_child(&mut self, place: usize, child: CommitId)
        requires within { place < length self.old.lists }
        requires room { self.old.used < self.old.link_room }
        ensures lists { self.new.lists
            ≡ slice_set self.old.lists place (child ∷ slice_index_or self.old.lists place []) }
        ensures used { self.new.used ≡ self.old.used + 1 }
        ensures place_room { self.new.place_room ≡ self.old.place_room }
        ensures link_room { self.new.link_room ≡ self.old.link_room }
    {
        let next = self.heads[place];
        self.links.push_reserved(Link { child, next });
        self.heads[place] = LinkAt::last_of(self.links.len());
    }

    /// Gives a place the children of another.
    pub fn copy(&mut self, from: usize, to: usize)
        requires there { from < length self.old.lists }
        requires within { to < length self.old.lists }
        ensures lists { self.new.lists ≡ slice_set self.old.lists to (slice_index_or self.old.lists from []) }
        ensures used { self.new.used ≡ self.old.used }
        ensures place_room { self.new.place_room ≡ self.old.place_room }
        ensures link_room { self.new.link_room ≡ self.old.link_room }
    {
        self.heads[to] = self.heads[from];
    }

    /// Forgets the children of a place. Their room isn't free again before all are forgotten.
    pub fn forget(&mut self, place: usize)
        requires { place < length self.old.lists }
        ensures lists { self.new.lists ≡ slice_set self.old.lists place [] }
        ensures used { self.new.used ≡ self.old.used }
        ensures place_room { self.new.place_room ≡ self.old.place_room }
        ensures link_room { self.new.link_room ≡ self.old.link_room }
    {
        self.heads[place] = LinkAt::none();
    }

    /// Whether there is room for one child more.
    pub fn has_room(&self) -> bool
        ensures { result ≡ true → self.now.used < self.now.link_room }
    {
        self.links.len() < self.links.capacity()
    }

    /// The children of a place, the youngest link first.
    pub fn children(&self, place: usize) -> Children<'_>
        requires { place < length self.now.lists }
        ensures { result ≡ slice_index_or self.now.lists place [] }
    {
        Children {
            at: self.heads[place],
            links: self.links.as_slice(),
        }
    }

    /// No children.
    pub fn none(&self) -> Children<'_>
        ensures { result ≡ [] }
    {
        Children {
            at: LinkAt::none(),
            links: self.links.as_slice(),
        }
    }
}

/// The children of a commit, each once. Contracts see the list of those that are still to come.
#[derive(Drop)]
pub struct Children<'a> {
    links: &'a [Link],
    at: LinkAt,
}

impl<'a> Model for Children<'a> {
    ghost use Rattle.std.specs.Prelude.{List, ℕ};

    ghost Value = { List ℕ };

    ghost use Rattle.event_arena.specs.Chains.{chain_left, IsChain};

    ghost view = { chain_left };

    ghost invariant = { IsChain };
}

impl<'a> Iterator for Children<'a> {
    type Item = CommitId;

    ghost next_gives = { YieldsFirst (λ left. left) };

    ghost remaining = { item_count (λ left. left) };

    fn next(&mut self) -> Option<CommitId> {
        match self.at.place() {
            Some(place) => {
                let link = self.links[place];
                self.at = link.next;
                Some(link.child)
            }
            None => None,
        }
    }
}
