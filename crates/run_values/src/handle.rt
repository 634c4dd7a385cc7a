//! Cells by their numbers.
ghost use Rattle.std.specs.Prelude.{ℕ, ◌≡◌, ◌<◌, ◌^◌};

use std::marker::Model;

/// The number of a cell, below 2^62. Contracts see the number.
#[derive(Clone, Copy, Debug, PartialEq, Eq)]
pub struct Handle {
    number: u64,
}

impl Model for Handle {
    ghost Value = { ℕ };

    ghost view = { λ handle. handle.number };

    ghost invariant = { λ handle. handle.number < 2 ^ 62 };

    ghost inverse = { λ number. record { number = number } };
}

impl Handle {
    /// The handle with this number.
    pub fn new(number: u64) -> Handle
        requires { number < 2 ^ 62 }
        ensures { result ≡ number }
    {
        Handle { number }
    }

    /// Its number.
    pub fn number(&self) -> u64
        ensures value { result ≡ self.now }
        ensures small { result < 2 ^ 62 }
    {
        self.number
    }
}
