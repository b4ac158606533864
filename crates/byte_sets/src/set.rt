//! A set of texts that others own.
ghost use Rattle.std.specs.Prelude.{◌≡◌, ◌||◌, [], bytes_eq, OnOk};
ghost use Rattle.std.specs.List.{list_any};

use plain_model::NoMemory;
use std::alloc::Global;
use std::collections::HashSet;
use std::marker::Model;

/// Texts, such as names or paths, each of which is looked up at once. Only which of them are in it counts, and no order. (own)
#[derive(Drop)]
pub struct ByteSet<'a> {
    set: HashSet<&'a [u8]>,
}

impl<'a> Model for ByteSet<'a> {
    ghost use Rattle.std.specs.Prelude.{List, ℕ, map};

    ghost Value = { List (List ℕ) };

    ghost view = { λ s. map (λ key. key.now) s.set.keys };
}

impl<'a> ByteSet<'a> {
    /// Nothing is in it.
    pub fn new(alloc: Global) -> ByteSet<'a>
        ensures { result ≡ [] }
    {
        ByteSet {
            set: HashSet::new(alloc),
        }
    }

    /// Whether a text is in it.
    pub fn has(&self, text: &[u8]) -> bool
        ensures { result ≡ list_any (bytes_eq text.now) self.now }
    {
        self.set.contains(text)
    }

    /// Puts a text in, if it isn't there.
    pub fn add(&mut self, text: &'a [u8]) -> Result<(), NoMemory>
        ensures { OnOk result ((p : _) → list_any (bytes_eq p) self.new
            ≡ (bytes_eq p text.now || list_any (bytes_eq p) self.old)) }
    {
        self.set.insert(text)?;
        Ok(())
    }

    /// Nothing is in it any more.
    pub fn clear(&mut self)
        ensures { self.new ≡ [] }
    {
        self.set.clear();
    }
}
