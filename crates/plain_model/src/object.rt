//! Object ids.
ghost use Rattle.std.specs.Prelude.{◌≡◌, ◌==◌, IsTrue};
ghost use Rattle.std.specs.List.{list_all};
ghost use Rattle.plain_model.specs.Objects.{is_object, is_hex, as_object};

use crate::list::{Copied, NoMemory};
use std::alloc::Global;
use std::marker::Model;

const DIGITS: usize = 40;

/// The name of an object outside the stream: 40 lower-case hexadecimal digits, not all of them zero.
/// (git-fast-import, `<dataref>`.)
#[derive(Clone, Copy)]
pub struct ObjectId {
    digits: [u8; DIGITS],
}

impl Model for ObjectId {
    ghost use Rattle.std.specs.Prelude.{List, ℕ, IsTrue};
    ghost use Rattle.plain_model.specs.Objects.{is_object};

    ghost Value = { List ℕ };

    ghost view = { λ id. id.digits };

    ghost invariant = { λ id. IsTrue (is_object id.digits) };

    ghost inverse = { λ n. record { digits = n } };
}

fn are_hex(digits: &[u8]) -> bool
    ensures { result ≡ list_all is_hex digits.now }
{
    digits.iter().all(|d| (*d >= b'0' && *d <= b'9') || (*d >= b'a' && *d <= b'f'))
}

fn are_zeros(digits: &[u8]) -> bool
    ensures { result ≡ list_all (λ d. d == 48) digits.now }
{
    digits.iter().all(|d| *d == b'0')
}

impl ObjectId {
    /// `None` exactly where the bytes are no such digits. It takes no memory.
    pub fn new(digits: &[u8]) -> Option<ObjectId>
        ensures { result ≡ as_object digits.now }
    {
        if digits.len() == DIGITS && are_hex(digits) && !are_zeros(digits) {
            let mut kept = [0; DIGITS];
            kept.copy_from_slice(digits);
            Some(ObjectId { digits: kept })
        } else {
            None
        }
    }

    pub fn digits(&self) -> &[u8]
        ensures value { result.now ≡ self.now }
        ensures form { IsTrue (is_object self.now) }
    {
        &self.digits
    }
}

impl Copied for ObjectId {
    fn copied(&self, _alloc: Global) -> Result<ObjectId, NoMemory> {
        Ok(*self)
    }
}
