//! Values that have several owners, none of which changes them.
ghost use Rattle.std.specs.Prelude.{◌≡◌, IfOk};

use crate::list::{Copied, Items, NoMemory};
use std::alloc::Global;
use std::marker::Model;
use std::rc::Rc;

/// A value that its owners share, so that one more owner costs no copy of it. Contracts see the value.
#[derive(Drop)]
pub struct Shared<T> {
    item: Rc<T>,
}

impl<T> Model for Shared<T> {
    ghost Value = { T };

    ghost view = { λ s. s.item.value };
}

impl<T: Drop> Shared<T> {
    /// The value, which has one owner so far.
    pub fn new(alloc: Global, item: T) -> Result<Shared<T>, NoMemory>
        ensures { IfOk result (λ made. made ≡ item) }
    {
        let item = Rc::new(alloc, item)?;
        Ok(Shared { item })
    }
}

impl<T: Drop> Shared<T> {
    /// One more owner of the same value.
    pub fn share(&self) -> Result<Shared<T>, NoMemory>
        ensures { IfOk result (λ made. made ≡ self.now) }
    {
        let item = self.item.clone()?;
        Ok(Shared { item })
    }

    pub fn as_ref(&self) -> &T
        ensures { result.now ≡ self.now }
    {
        self.item.as_ref()
    }

    /// The value as std's shared pointer.
    pub fn into_rc(self) -> Rc<T>
        ensures { result.value ≡ self }
    {
        self.item
    }

    /// The value of std's shared pointer.
    pub fn of_rc(item: Rc<T>) -> Shared<T>
        ensures { result ≡ item.value }
    {
        Shared { item }
    }
}

impl<T> Shared<Items<T>> {
    pub fn as_slice(&self) -> &[T]
        ensures { result.now ≡ self.now }
    {
        self.item.as_ref().as_slice()
    }
}

impl<T: Drop> Copied for Shared<T> {
    fn copied(&self, _alloc: Global) -> Result<Shared<T>, NoMemory> {
        self.share()
    }
}
