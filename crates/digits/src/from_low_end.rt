//! The forms of letters G and B, found from the low end: each digit is told by it and the plain digit above.

ghost use Rattle.std.specs.Prelude.{◌≡◌, suc, ◌<◌, ◌++◌, length, drop};
ghost use Rattle.forms.specs.Recoded.{recoded};

use crate::borrow_rule::BorrowRule;
use crate::numeral::Numeral;

/// Writes the form of `plain` into the front of `form`.
pub fn recode_from_low_end<R: BorrowRule>(plain: &Numeral<'_, u8>, form: &mut [i8])
    requires { length plain.now.digits < length form.old }
    ensures { form.new ≡ recoded R.borrow plain.now.radix plain.now.digits ++ drop (suc (length plain.now.digits)) form.old }
{
    let radix = plain.radix;
    let mut borrowed = false;
    // By index: of what an adapter of `iter_mut` writes, as `rev` or `zip`, a proof knows nothing.
    for i in (0..plain.digits.len()).rev() {
        let placed = R::step(radix, plain.above(i), plain.digits[i], borrowed);
        form[i + 1] = placed.digit;
        borrowed = placed.borrows;
    }
    form[0] = R::step(radix, 0, 0, borrowed).digit;
}
