//! Ids that are found by marks.
ghost use Rattle.std.specs.Prelude.{
  ◌≡◌,
  ◌==◌,
  ℕ,
  Some,
  None,
  OnOk,
  if◌then◌else◌,
};
ghost use Rattle.std.specs.Map.{lookup};
ghost use Rattle.stream_drafts.specs.Indexed.{first_of};
ghost use Rattle.stream_drafts.specs.Rising.{AreApart, HasRoom, RiseFrom, finds, last_from};

use plain_model::NoMemory;
use std::alloc::Global;
use std::collections::HashMap;

/// Which id each mark finds, if it finds one. Mostly marks rise, and the last is asked for: those that rose stand in a list
/// in their order, and all others in a map.
#[derive(Drop)]
pub struct MarkedIds {
    pub rising: Vec<(u64, u64)>,
    pub others: HashMap<u64, u64>,
}

// The last of the marks that rose, or 0.
fn last_of(rising: &[(u64, u64)]) -> u64
    ensures { result ≡ last_from 0 rising.now }
{
    if rising.is_empty() {
        0
    } else {
        rising[rising.len() - 1].0
    }
}

// The id beside the mark.
fn among(rising: &[(u64, u64)], mark: u64) -> Option<u64>
    requires { RiseFrom 0 rising.now }
    ensures { result ≡ lookup (λ a. a == mark) rising.now }
{
    let count = rising.len();
    if count > 0 && rising[count - 1].0 == mark {
        return Some(rising[count - 1].1);
    }
    match rising.binary_search_by_key(&mark, |marked: &(u64, u64)| -> u64 { marked.0 }) {
        Ok(at) => Some(rising[at].1),
        Err(_) => None,
    }
}

impl MarkedIds {
    /// No mark finds one.
    pub fn new(alloc: Global) -> MarkedIds
        ensures none { (n : ℕ) → finds result n ≡ None }
        ensures apart { AreApart result }
    {
        MarkedIds {
            rising: Vec::new(alloc),
            others: HashMap::new(alloc),
        }
    }

    /// The id that the mark finds.
    pub fn find(&self, mark: u64) -> Option<u64>
        requires { AreApart self.now }
        ensures { result ≡ finds self.now mark }
    {
        match among(self.rising.as_slice(), mark) {
            Some(id) => Some(id),
            None => self.others.get(&mark).copied(),
        }
    }

    /// Makes room for one mark more.
    pub fn make_room(&mut self) -> Result<(), NoMemory>
        requires { AreApart self.old }
        ensures same { (n : ℕ) → finds self.new n ≡ finds self.old n }
        ensures apart { AreApart self.new }
        ensures room { OnOk result (HasRoom self.new) }
    {
        self.rising.reserve(1)?;
        self.others.reserve(1)?;
        Ok(())
    }

    /// Notes that the mark finds the id, if it finds none yet, in room that is there.
    pub fn note(&mut self, mark: u64, id: u64)
        requires apart { AreApart self.old }
        requires room { HasRoom self.old }
        ensures finds { (n : ℕ) → finds self.new n ≡
            first_of (finds self.old n) (if mark == n then Some id else None) }
        ensures apart { AreApart self.new }
    {
        if mark > last_of(self.rising.as_slice()) {
            self.rising.push_reserved((mark, id));
        } else if self.find(mark).is_none() {
            let noted: Result<_, _> = self.others.insert(mark, id);
            let _ = noted.unwrap();
        }
    }
}
