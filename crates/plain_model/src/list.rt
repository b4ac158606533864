//! One list type for all lists that contracts speak of; they see it as the plain list of its items.
ghost use Rattle.std.specs.Prelude.{◌≡◌, [], ◌∷◌, ◌++◌, take, OnOk, OnErr, IfOk};
ghost use Rattle.std.specs.Fmt.{decimal};
ghost use Rattle.plain_model.specs.declared.list.NoMemory.{NoMemory};

use itoa::Buffer;
use std::alloc::{AllocError, AllocFailed, Global};
use std::marker::Model;

/// Out of memory, and nothing else.
#[derive(Clone, Copy, Debug, PartialEq, Eq)]
pub struct NoMemory;

impl From<AllocError> for NoMemory {
    fn from(_error: AllocError) -> NoMemory {
        NoMemory
    }
}

impl<T: Drop> From<AllocFailed<T>> for NoMemory {
    fn from(_error: AllocFailed<T>) -> NoMemory {
        NoMemory
    }
}

/// A value of which an equal one can be made, if there is memory.
pub trait Copied {
    fn copied(&self, alloc: Global) -> Result<Self, NoMemory>
        ensures { IfOk result (λ made. made ≡ self.now) };

    // Equal values of all of these.
    fn all_copied(alloc: Global, items: &[Self]) -> Result<Vec<Self>, NoMemory>
    where
        Self: Drop + Sized,
        ensures { IfOk result (λ made. made.items ≡ items.now) }
    {
        let mut made = Vec::with_capacity(alloc, items.len())?;
        for item in items {
            made.push(item.copied(alloc)?)?;
        }
        Ok(made)
    }
}

impl Copied for u8 {
    fn copied(&self, _alloc: Global) -> Result<u8, NoMemory> {
        Ok(*self)
    }

    fn all_copied(alloc: Global, items: &[u8]) -> Result<Vec<u8>, NoMemory> {
        Ok(Vec::from_slice(alloc, items)?)
    }
}

impl Copied for u64 {
    fn copied(&self, _alloc: Global) -> Result<u64, NoMemory> {
        Ok(*self)
    }
}

impl<T: Copied> Copied for Option<T> {
    fn copied(&self, alloc: Global) -> Result<Option<T>, NoMemory> {
        match self {
            None => Ok(None),
            Some(value) => Ok(Some(value.copied(alloc)?)),
        }
    }
}

impl<A: Copied + Drop, B: Copied> Copied for (A, B) {
    fn copied(&self, alloc: Global) -> Result<(A, B), NoMemory> {
        let first = self.0.copied(alloc)?;
        let second = self.1.copied(alloc)?;
        Ok((first, second))
    }
}

/// A list that keeps its allocator, so that its methods take none.
#[derive(Drop)]
pub struct Items<T> {
    alloc: Global,
    items: Vec<T>,
}

/// Bytes.
pub type Text = Items<u8>;

/// Numbers.
pub type NumberList = Items<u64>;

impl<T> Model for Items<T> {
    ghost use Rattle.std.specs.Prelude.{List};

    ghost Value = { List T };

    ghost view = { λ l. l.items.items };
}

impl<T> Items<T> {
    /// The empty list. It takes no memory.
    pub fn empty(alloc: Global) -> Items<T>
        ensures { result ≡ [] }
    {
        Items {
            alloc,
            items: Vec::new(alloc),
        }
    }

    /// The empty list, in the form of the calls that can want memory.
    pub fn new(alloc: Global) -> Result<Items<T>, NoMemory>
        ensures { IfOk result (λ made. made ≡ []) }
    {
        Ok(Items::empty(alloc))
    }

    pub fn as_slice(&self) -> &[T]
        ensures { result.now ≡ self.now }
    {
        self.items.as_slice()
    }

    /// The items themselves, taken out of the list.
    pub fn into_items(self) -> Vec<T>
        ensures { result.items ≡ self }
    {
        self.items
    }
}

impl<T: Drop> Items<T> {
    /// Puts an item at the end; a refused call leaves the list.
    pub fn push(&mut self, item: T) -> Result<(), NoMemory>
        ensures ok { OnOk result (self.new ≡ self.old ++ item ∷ []) }
        ensures err { OnErr result (self.new ≡ self.old) }
    {
        let len = self.items.len();
        if len == self.items.capacity() {
            self.items.reserve_exact(if len == 0 { 1 } else { len })?;
        }
        self.items.push(item)?;
        Ok(())
    }

    /// Puts an item in front of all others, which costs a move of each; a refused call leaves the list.
    pub fn push_front(&mut self, item: T) -> Result<(), NoMemory>
        ensures ok { OnOk result (self.new ≡ item ∷ self.old) }
        ensures err { OnErr result (self.new ≡ self.old) }
    {
        self.items.insert(0, item)?;
        Ok(())
    }
}

impl<T> Items<T> {
    /// The allocator that the list keeps.
    pub fn alloc(&self) -> Global {
        self.alloc
    }

    /// The empty list over the same allocator. It takes no memory.
    pub fn empty_like(&self) -> Items<T>
        ensures { result ≡ [] }
    {
        Items::empty(self.alloc)
    }
}

impl<T: Drop> Items<T> {
    /// Takes away what is after so many items.
    pub fn truncate(&mut self, len: usize)
        ensures { self.new ≡ take len self.old }
    {
        self.items.truncate(len);
    }
}

impl Items<u8> {
    /// Puts bytes at the end; a refused call leaves the text.
    pub fn push_all(&mut self, bytes: &[u8]) -> Result<(), NoMemory>
        ensures ok { OnOk result (self.new ≡ self.old ++ bytes.now) }
        ensures err { OnErr result (self.new ≡ self.old) }
    {
        self.items.extend_from_slice(bytes)?;
        Ok(())
    }

    /// Puts a number in decimal digits at the end; a refused call leaves the text.
    pub fn push_number(&mut self, number: u64) -> Result<(), NoMemory>
        ensures ok { OnOk result (self.new ≡ self.old ++ decimal number) }
        ensures err { OnErr result (self.new ≡ self.old) }
    {
        let mut buffer = Buffer::new();
        self.push_all(buffer.format(number).as_bytes())
    }
}

impl<T: Copied + Drop> Items<T> {
    /// The list of copies of these items.
    pub fn of(alloc: Global, items: &[T]) -> Result<Items<T>, NoMemory>
        ensures { IfOk result (λ made. made ≡ items.now) }
    {
        let items = T::all_copied(alloc, items)?;
        Ok(Items { alloc, items })
    }

    /// An equal list.
    pub fn copy(&self) -> Result<Items<T>, NoMemory>
        ensures { IfOk result (λ made. made ≡ self.now) }
    {
        Items::of(self.alloc, self.as_slice())
    }
}

impl<T: Copied + Drop> Copied for Items<T> {
    fn copied(&self, alloc: Global) -> Result<Items<T>, NoMemory> {
        Items::of(alloc, self.as_slice())
    }
}
