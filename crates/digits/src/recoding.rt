//! The three recodings of plain digits.

ghost use Rattle.std.specs.Prelude.{◌≡◌, suc, ◌<◌, ◌++◌, length, drop};
ghost use Rattle.forms.specs.Letters.{form_of};
ghost use Rattle.digits.specs.Recoding.{Recodes, RecodesSigned};
ghost use Rattle.digits.specs.Refusals.{answer, recode_check};

use crate::balanced::Balanced;
use crate::checks::checked_plain;
use crate::from_low_end::recode_from_low_end;
use crate::from_top::recode_from_top;
use crate::mirroring::mirror;
use crate::nonadjacent::NonAdjacent;
use crate::numeral::Numeral;
use crate::refusal::Fault;
use forms::Letter;

/// Which recoding to run is the caller's letter, known only when it is called.
///
/// The area is lent by the caller, so its room is asked here and below, and is no part of the digits' type.
fn write_form(letter: Letter, plain: &Numeral<'_, u8>, form: &mut [i8])
    requires { length plain.now.digits < length form.old }
    ensures { form.new ≡ form_of letter plain.now.radix plain.now.digits ++ drop (suc (length plain.now.digits)) form.old }
{
    match letter {
        Letter::G => recode_from_low_end::<NonAdjacent>(plain, form),
        Letter::B => recode_from_low_end::<Balanced>(plain, form),
        Letter::L => recode_from_top(plain, form),
    }
}

/// Writes the letter's form of the number that `plain` writes, top digit first, into the front of `form`.
///
/// The form has one place more than `plain`, and no form of that number is lighter by the letter's measure.
pub fn recode(letter: Letter, radix: u8, plain: &[u8], form: &mut [i8]) -> Result<(), Fault>
    ensures answered { result ≡ answer (recode_check radix plain.now (length form.old)) }
    ensures written { Recodes letter radix plain.now form.old form.new result }
{
    let plain = checked_plain(radix, plain, form.len())?;
    write_form(letter, &plain, form);
    Ok(())
}

/// As `recode`, for a number with a sign: below 0 every digit of the form is negated.
pub fn recode_signed(
    letter: Letter,
    radix: u8,
    negative: bool,
    plain: &[u8],
    form: &mut [i8],
) -> Result<(), Fault>
    ensures answered { result ≡ answer (recode_check radix plain.now (length form.old)) }
    ensures written { RecodesSigned letter radix negative plain.now form.old form.new result }
{
    recode(letter, radix, plain, form)?;
    if negative {
        mirror(radix, &mut form[..plain.len() + 1]).unwrap();
    }
    Ok(())
}
