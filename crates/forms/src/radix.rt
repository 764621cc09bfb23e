//! The radix of a form.

ghost use Rattle.std.specs.Prelude.{◌≡◌, ◌<◌, ◌≤◌};
ghost use Rattle.forms.specs.Radix.{radix};

use std::marker::Model;

/// A radix, 2 to 16; a contract sees it as its number.
#[derive(Clone, Copy, PartialEq, Eq, Debug)]
pub struct Radix {
    value: u8,
}

impl Model for Radix {
    ghost use Rattle.std.specs.Prelude.{ℕ, ◌<◌, ◌≤◌};

    ghost Value = { ℕ };

    ghost view = { λ r. r.value };

    ghost invariant = { λ r. (1 < r.value) × (r.value ≤ 16) };

    ghost inverse = { λ n. record { value = n } };
}

impl Radix {
    /// The radix of this value, if it is one.
    pub fn new(value: u8) -> Option<Radix>
        ensures { result ≡ radix value }
    {
        if (2..=16).contains(&value) {
            Some(Radix { value })
        } else {
            None
        }
    }

    /// Its value.
    pub fn get(self) -> u8
        ensures value { result ≡ self }
        ensures low { 1 < result }
        ensures high { result ≤ 16 }
    {
        self.value
    }
}
