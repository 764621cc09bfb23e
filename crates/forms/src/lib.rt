//! Signed-digit forms: what they are, which of them each letter names, and why no other is lighter.
//!
//! The definitions are in `specs/`, their theorems in `proofs/`; there is hardly any code.

#![tactic(auto)]

ghost use Rattle.forms.specs.Theorems.{LightestForms};

mod character;
mod radix;

pub use character::NoLetter;
pub use radix::Radix;

/// How the digits of a form are weighed.
#[derive(Clone, Copy, PartialEq, Eq, Debug)]
pub enum Measure {
    /// The number of nonzero digits.
    Count,
    /// The sum of the digits' squares.
    Square,
}

/// Which form of a number is meant.
#[derive(Clone, Copy, PartialEq, Eq, Debug)]
pub enum Letter {
    /// The generalized non-adjacent form.
    G,
    /// The balanced non-adjacent form.
    B,
    /// The left-to-right star form.
    L,
}

/// Computes nothing: its contract says what the three letters' forms are, and that none is lighter.
pub fn lightest_forms() -> u8
    ensures { LightestForms }
{
    0
}
