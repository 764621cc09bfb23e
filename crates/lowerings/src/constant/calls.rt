//! How a constant is made, and what it tells.

ghost use Rattle.std.specs.Prelude.{◌≡◌, suc, ◌-◌, ◌<◌, ◌≤◌, not, ◌&&◌, [], ◌∷◌, ◌++◌, length, take, replicate, pos, neg_ℤ};
ghost use Rattle.std.specs.Int.Digits.{AllBelowBase};
ghost use Rattle.lowerings.specs.Constants.{digits_of, number_of, Writes};
ghost use Rattle.digits.specs.Signed.{sided_number};
ghost use Rattle.lowerings.specs.Zero.{zeros};

use crate::constant::{Constant, MOST_DIGITS};
use forms::Radix;

/// Whether all digits are 0.
fn all_zero(digits: &[u8]) -> bool
    ensures { result ≡ zeros digits.now }
{
    digits.iter().all(|digit| *digit == 0)
}

/// The sign, which zero has not.
fn signed(negative: bool, zero: bool) -> bool
    ensures { result ≡ (negative && not zero) }
{
    negative && !zero
}

/// The digits at the front of an array, with zeros behind them.
fn array_of<const N: usize>(digits: &[u8]) -> [u8; N]
    requires { length digits.now ≤ N }
    ensures { result ≡ digits.now ++ replicate (N - length digits.now) 0 }
{
    let mut array = [0u8; N];
    array[..digits.len()].copy_from_slice(digits);
    array
}

impl Constant {
    /// The constant that these digits write with this sign.
    pub fn of(radix: Radix, negative: bool, digits: &[u8]) -> Constant
        requires some { 1 ≤ length digits.now }
        requires few { length digits.now ≤ 120 }
        requires below { AllBelowBase radix digits.now }
        ensures { Writes radix (length digits.now) (sided_number radix negative digits.now) result }
    {
        Constant {
            radix,
            length: digits.len(),
            negative: signed(negative, all_zero(digits)),
            plain: array_of(digits),
        }
    }

    /// The constant 0.
    pub fn zero(radix: Radix, length: usize) -> Constant
        requires some { 1 ≤ length }
        requires few { length ≤ 120 }
        ensures { Writes radix length (pos 0) result }
    {
        // Brings into the proof what the type of the radix says.
        prove!(radix.get() >= 2);
        Constant {
            radix,
            length,
            negative: false,
            plain: array_of(&[]),
        }
    }

    /// Its digits, top first.
    pub fn digits(&self) -> &[u8]
        ensures value { result.now ≡ digits_of self.now }
        ensures places { length result.now ≡ self.now.length }
        ensures below { AllBelowBase self.now.radix result.now }
        ensures low { 1 < self.now.radix }
        ensures high { self.now.radix ≤ 16 }
    {
        // Brings into the proof what the type of the radix says.
        prove!(self.radix.get() >= 2);
        &self.plain[..self.length]
    }

    /// The opposite constant.
    pub fn opposite(&self) -> Constant
        ensures { Writes self.now.radix self.now.length (neg_ℤ (number_of self.now)) result }
    {
        Constant::of(self.radix, !self.negative, self.digits())
    }

    /// Its digits with a 0 behind them, in the first places of an array.
    pub fn raised(&self) -> [u8; MOST_DIGITS + 1]
        ensures { take (suc self.now.length) result ≡ digits_of self.now ++ (0 ∷ []) }
    {
        array_of(self.digits())
    }
}
