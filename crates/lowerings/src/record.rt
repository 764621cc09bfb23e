//! The record of a lowering. No record may exist whose form is not that of its constant and letter.

ghost use Rattle.std.specs.Prelude.{◌≡◌, suc, take};
ghost use Rattle.lowerings.specs.Constants.{digits_of};
ghost use Rattle.digits.specs.Signed.{sided_form};

use crate::constant::{Constant, MOST_DIGITS};
use crate::making::form_array;
use forms::Letter;

pub mod edits;

/// A constant, and the form that the letter in force gives it.
///
/// The form is one digit longer than the constant, and stands at the front of an array, since a record has no heap.
#[derive(Clone, Copy)]
pub struct Lowering {
    constant: Constant,
    letter: Letter,
    form: [i8; MOST_DIGITS + 1],
    ghost formed: { take (suc constant.length) form ≡ sided_form letter constant.radix constant.negative (digits_of constant) },
}

impl Lowering {
    /// The lowering of a constant, with the letter's form of it.
    fn of(constant: Constant, letter: Letter) -> Lowering
        ensures constant { result.constant ≡ constant }
        ensures letter { result.letter ≡ letter }
    {
        let form = form_array(letter, &constant);
        Lowering {
            constant,
            letter,
            form,
        }
    }
}
