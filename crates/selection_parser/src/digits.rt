//! Digits of a number.
ghost use Rattle.std.specs.Prelude.{◌≡◌, ◌+◌, ◌-◌, ◌*◌, ◌^◌, ◌<◌, ◌≤◌, true, nat_lt};
ghost use Rattle.plain_model.specs.Numbers.{is_digit};

use std::marker::Model;

/// At most so many digits are in a number. (own)
pub const MAX_DIGITS: u64 = 19;

/// One to 19 digits: their number, and how many they are.
#[derive(Drop)]
pub struct Digits {
    number: u64,
    count: u64,
}

impl Model for Digits {
    ghost use Rattle.std.specs.Prelude.{ℕ, ◌^◌, ◌<◌, ◌≤◌};

    ghost Value = { ℕ × ℕ };

    ghost view = { λ d. (d.number, d.count) };

    ghost invariant = { λ d. (d.count ≤ 19) × (d.number < 10 ^ d.count) };
}

/// A decimal digit.
pub fn is_digit(byte: u8) -> bool
    ensures { result ≡ is_digit byte }
{
    byte >= b'0' && byte <= b'9'
}

impl Digits {
    /// One digit.
    pub fn of(byte: u8) -> Digits
        requires { is_digit byte ≡ true }
        ensures { result ≡ (byte - 48, 1) }
    {
        Digits {
            number: (byte - b'0') as u64,
            count: 1,
        }
    }

    /// One more may follow.
    pub fn has_room(&self) -> bool
        ensures { result ≡ nat_lt self.now.1 19 }
    {
        self.count < MAX_DIGITS
    }

    /// With one digit more.
    pub fn push(&mut self, byte: u8)
        requires digit { is_digit byte ≡ true }
        requires room { self.old.1 < 19 }
        ensures { self.new ≡ (10 * self.old.0 + (byte - 48), self.old.1 + 1) }
    {
        self.number = 10 * self.number + (byte - b'0') as u64;
        self.count += 1;
    }

    /// The number of the digits.
    pub fn number(&self) -> u64
        ensures { result ≡ self.now.0 }
    {
        self.number
    }
}
