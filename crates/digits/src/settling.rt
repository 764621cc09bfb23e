//! The plain digits of a form.

ghost use Rattle.std.specs.Prelude.{◌≡◌, ◌<◌, ◌≤◌, ◌++◌, length, drop, pos, ◌+ℤ◌, ◌-ℤ◌, neg_ℤ, ◌<ℤ◌, if◌then◌else◌, int_lt, unsigned_abs};
ghost use Rattle.forms.specs.Borrow.{borrow_if, num};
ghost use Rattle.forms.specs.Form.{InRange};
ghost use Rattle.forms.specs.Settled.{taken, left_of, settled};
ghost use Rattle.digits.specs.Settling.{Settled, Settles, sided};

use crate::checks::{check_area, checked_form};
use crate::digit::Digit;
use crate::numeral::Numeral;
use crate::refusal::Fault;
use forms::Radix;

// Digits below 16 in size, in helpers of one line: a type for them would be longer than they are.

/// The digit, or its opposite.
fn sided_digit(opposite: bool, digit: i8) -> i8
    requires { unsigned_abs digit < 16 }
    ensures { result ≡ (if opposite then neg_ℤ digit else digit) }
{
    if opposite { -digit } else { digit }
}

/// The digit less the borrow below it.
fn less_borrow(digit: i8, borrowed: bool) -> i8
    requires { unsigned_abs digit < 16 }
    ensures { result ≡ digit -ℤ pos (num (borrow_if borrowed)) }
{
    if borrowed { digit - 1 } else { digit }
}

/// A number below 0 with the radix added.
fn raised(radix: Radix, rest: i8) -> u8
    requires low { rest <ℤ pos 0 }
    requires fits { unsigned_abs rest ≤ radix }
    ensures { result ≡ unsigned_abs (rest +ℤ pos radix) }
{
    (rest + radix.get() as i8) as u8
}

/// A plain digit, and whether it borrows from the place above.
#[derive(Clone, Copy)]
struct Left {
    digit: u8,
    borrows: bool,
}

/// What is left of a digit with the borrow below it.
fn settle_digit(radix: Radix, digit: i8, borrowed: bool) -> Left
    requires { unsigned_abs digit < radix }
    ensures left { result.digit ≡ left_of radix digit (borrow_if borrowed) (borrow_if result.borrows) }
    ensures borrows { result.borrows ≡ int_lt (digit -ℤ pos (num (borrow_if borrowed))) (pos 0) }
{
    let rest = less_borrow(digit, borrowed);
    if rest < 0 {
        Left {
            digit: raised(radix, rest),
            borrows: true,
        }
    } else {
        Left {
            digit: rest.size(),
            borrows: false,
        }
    }
}

/// Settles the form, or its opposite, and tells whether it borrows above its top place.
///
/// A flag and no closure, which would have to say the same of each digit in clauses of its own.
fn settle_pass(form: &Numeral<'_, i8>, opposite: bool, plain: &mut [u8]) -> bool
    requires { length form.now.digits ≤ length plain.old }
    ensures area { plain.new ≡ settled form.now.radix (sided opposite form.now.digits) ++ drop (length form.now.digits) plain.old }
    ensures borrow { borrow_if result ≡ taken (sided opposite form.now.digits) }
    ensures range { InRange form.now.radix form.now.digits }
{
    let mut borrowed = false;
    // By index: of what an adapter of `iter_mut` writes, as `rev` or `zip`, a proof knows nothing.
    for i in (0..form.digits.len()).rev() {
        let digit = sided_digit(opposite, form.digits[i]);
        let left = settle_digit(form.radix, digit, borrowed);
        plain[i] = left.digit;
        borrowed = left.borrows;
    }
    borrowed
}

/// Writes the plain digits of a form that passed the checks, and tells whether its value is negative.
pub fn settle_form(form: &Numeral<'_, i8>, plain: &mut [u8]) -> bool
    requires { length form.now.digits ≤ length plain.old }
    ensures { Settled form.now.radix form.now.digits plain.old plain.new result }
{
    let negative = settle_pass(form, false, plain);
    if negative {
        settle_pass(form, true, plain);
    }
    negative
}

/// Writes the plain digits of `form` into the front of `plain`, and tells whether its value is negative.
pub fn settle(radix: u8, form: &[i8], plain: &mut [u8]) -> Result<bool, Fault>
    ensures { Settles radix form.now plain.old plain.new result }
{
    let form = checked_form(radix, form)?;
    check_area(form.digits.len(), plain.len())?;
    Ok(settle_form(&form, plain))
}
