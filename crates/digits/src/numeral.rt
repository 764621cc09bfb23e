//! Digits that passed the checks.

ghost use Rattle.std.specs.Prelude.{◌≡◌, ◌-◌, ◌≤◌, length, position, slice_index, nat_le, IfOk};
ghost use Rattle.digits.specs.Refusals.{Answers, topmost};
ghost use Rattle.digits.specs.Steps.{above};

use crate::digit::Digit;
use crate::refusal::Fault;
use forms::Radix;
use std::marker::Model;

/// Digits with their radix, the top digit first, each smaller than the radix.
#[derive(Drop)]
pub struct Numeral<'a, D: Digit> {
    pub radix: Radix,
    pub digits: &'a [D],
}

impl<'a, D: Digit> Model for Numeral<'a, D> {
    ghost use Rattle.digits.specs.Numerals.{Numeral as NumeralValue, Lawful};

    ghost Value = { NumeralValue D };

    ghost view = { λ n. record { radix = n.radix; digits = n.digits.now } };

    ghost invariant = { λ n. Lawful D.Digit.size n.radix n.digits.now };
}

/// The index of the first digit that is not smaller than the radix.
fn too_large<D: Digit>(radix: u8, digits: &[D]) -> Option<usize>
    ensures { result ≡ position (λ d. nat_le radix (D.size d)) digits.now }
{
    digits.iter().position(|digit| digit.size() >= radix)
}

impl<'a, D: Digit> Numeral<'a, D> {
    /// These digits, unless one is too large.
    pub fn checked(radix: Radix, digits: &'a [D]) -> Result<Numeral<'a, D>, Fault>
        ensures answered { Answers (topmost (λ d. nat_le radix (D.size d)) digits.now) result }
        ensures same { IfOk result (λ n. n ≡ record { radix = radix; digits = digits.now }) }
    {
        match too_large(radix.get(), digits) {
            Some(index) => Err(Fault::Digit {
                place: digits.len() - 1 - index,
            }),
            None => Ok(Numeral { radix, digits }),
        }
    }
}

impl<'a> Numeral<'a, u8> {
    /// The digit at index `i`, and 0 below the last.
    pub fn at(&self, i: usize) -> u8
        ensures { result ≡ slice_index self.now.digits i }
    {
        self.digits.get(i).copied().unwrap_or(0)
    }

    /// The digit above index `i`, and 0 above the top.
    pub fn above(&self, i: usize) -> u8
        requires { i ≤ length self.now.digits }
        ensures { result ≡ above self.now.digits i }
    {
        if i == 0 { 0 } else { self.digits[i - 1] }
    }
}
