//! Adding to one digit of a form, and carrying.

ghost use Rattle.std.specs.Prelude.{◌≡◌, ℕ, suc, ◌+◌, ◌-◌, ◌^◌, ◌<◌, ◌≤◌, ◌∷◌, length, take, pos, ◌+ℤ◌, ◌*ℤ◌, slice_index_or, unsigned_abs};
ghost use Rattle.forms.specs.Form.{value, InRange};
ghost use Rattle.lowerings.specs.Constants.{digits_of, number_of};
ghost use Rattle.lowerings.specs.Held.{signed_digits};
ghost use Rattle.lowerings.specs.Tally.{signed_by};
ghost use Rattle.lowerings.specs.Sums.{Addable, Written};

use crate::constant::{Constant, MOST_DIGITS};
use digits::settle;
use forms::Radix;

/// A plain digit with a sign.
fn signed_digit(negative: bool, digit: u8) -> i8
    requires { digit < 16 }
    ensures { result ≡ signed_by negative digit }
{
    if negative {
        -(digit as i8)
    } else {
        digit as i8
    }
}

/// The digits of a constant, each with the sign, behind a 0, in the first places of an array.
fn signed_array(constant: &Constant) -> [i8; MOST_DIGITS + 1]
    ensures { take (suc constant.now.length) result ≡ pos 0 ∷ signed_digits constant.now.negative (digits_of constant.now) }
{
    let mut form = [0i8; MOST_DIGITS + 1];
    // By index: of what an adapter of `iter_mut` writes, as `zip`, a proof knows nothing.
    for (i, digit) in constant.digits().iter().enumerate() {
        form[i + 1] = signed_digit(constant.negative, *digit);
    }
    form
}

/// What stays of a digit, and what it carries.
#[derive(Clone, Copy)]
struct Parts {
    stays: i8,
    carry: i8,
}

/// What stays is smaller than the radix, the carry 1, 0 or -1. The radix is the number that the caller's loop has at hand.
fn split(radix: u8, digit: i8) -> Parts
    requires high { radix ≤ 16 }
    requires digit { unsigned_abs digit < radix + radix }
    ensures parts { digit ≡ result.stays +ℤ result.carry *ℤ pos radix }
    ensures stays { unsigned_abs result.stays < radix }
    ensures carry { unsigned_abs result.carry ≤ 1 }
{
    let radix = radix as i8;
    if digit >= radix {
        Parts {
            stays: digit - radix,
            carry: 1,
        }
    } else if digit <= -radix {
        Parts {
            stays: digit + radix,
            carry: -1,
        }
    } else {
        Parts {
            stays: digit,
            carry: 0,
        }
    }
}

/// The sum of two digits.
fn sum(digit: i8, other: i8) -> i8
    requires digit { unsigned_abs digit < 16 }
    requires other { unsigned_abs other < 16 }
    ensures { result ≡ digit +ℤ other }
{
    digit + other
}

/// Carries from the digit at `index` upwards until every digit is smaller than the radix.
fn carry_up(radix: Radix, form: &mut [i8], index: usize)
    requires some { 1 ≤ index }
    requires inside { index < length form.old }
    requires top { slice_index_or form.old 0 (pos 0) ≡ pos 0 }
    requires large { unsigned_abs (slice_index_or form.old index (pos 0)) < radix + radix }
    requires others { (k : ℕ) → ¬ (k ≡ index) → unsigned_abs (slice_index_or form.old k (pos 0)) < radix }
    ensures worth { value radix form.new ≡ value radix form.old }
    ensures range { InRange radix form.new }
    ensures long { length form.new ≡ length form.old }
{
    let radix = radix.get();
    // By index: each turn writes two neighbours.
    for i in (1..index + 1).rev() {
        let Parts { stays, carry } = split(radix, form[i]);
        form[i] = stays;
        form[i - 1] = sum(form[i - 1], carry);
    }
}

/// Adds `digit` to the digit at `index` and settles the sum into `wide`; tells whether it is negative.
fn settle_sum(radix: Radix, form: &mut [i8], index: usize, digit: i8, wide: &mut [u8]) -> bool
    requires { Addable radix form.old index digit wide.old }
    ensures { Written radix (value radix form.old +ℤ digit *ℤ pos (radix ^ (length form.old - suc index))) (length form.old) result wide.new }
{
    let base = radix.get();
    form[index] = sum(form[index], digit);
    carry_up(radix, form, index);
    settle(base, form, wide).unwrap()
}

/// Adds `digit` at `place` to a constant, into `wide`; tells whether the sum is negative.
pub fn add_digit(constant: &Constant, digit: i8, place: usize, wide: &mut [u8]) -> bool
    requires digit { unsigned_abs digit < constant.now.radix }
    requires place { place < constant.now.length }
    requires room { length wide.old ≡ suc constant.now.length }
    ensures { Written constant.now.radix (number_of constant.now +ℤ digit *ℤ pos (constant.now.radix ^ place)) (suc constant.now.length) result wide.new }
{
    let mut form = signed_array(constant);
    let length = constant.length;
    settle_sum(
        constant.radix,
        &mut form[..length + 1],
        length - place,
        digit,
        wide,
    )
}
