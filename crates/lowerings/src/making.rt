//! The form of a constant.

ghost use Rattle.std.specs.Prelude.{◌≡◌, suc, ◌<◌, length, take};
ghost use Rattle.digits.specs.Signed.{sided_form};
ghost use Rattle.lowerings.specs.Constants.{digits_of};

use crate::constant::{Constant, MOST_DIGITS};
use digits::recode_signed;
use forms::Letter;

/// The letter's form of a constant, in the first places of an array.
pub fn form_array(letter: Letter, constant: &Constant) -> [i8; MOST_DIGITS + 1]
    ensures { take (suc constant.now.length) result ≡ sided_form letter constant.now.radix constant.now.negative (digits_of constant.now) }
{
    let mut form = [0i8; MOST_DIGITS + 1];
    put_form(letter, constant, &mut form);
    form
}

/// Puts the letter's form of a constant at the front of `form`. Nothing is refused: digits and area fit.
fn put_form(letter: Letter, constant: &Constant, form: &mut [i8])
    requires { constant.now.length < length form.old }
    ensures { take (suc constant.now.length) form.new ≡ sided_form letter constant.now.radix constant.now.negative (digits_of constant.now) }
{
    let radix = constant.radix.get();
    recode_signed(letter, radix, constant.negative, constant.digits(), form).unwrap();
}
