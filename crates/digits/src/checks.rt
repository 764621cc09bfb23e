//! The checks of what a caller hands in, each refusing for one reason.

ghost use Rattle.std.specs.Prelude.{◌≡◌, length, IfOk};
ghost use Rattle.digits.specs.Refusals.{answer, Answers, radix_check, length_check, area_check, form_check, recode_check};

use crate::numeral::Numeral;
use crate::refusal::Fault;
use forms::Radix;

/// The most places that a form handed in may have.
pub const MOST_PLACES: usize = 121;

/// The most plain digits that a recoding takes.
const MOST_DIGITS: usize = 120;

fn checked_radix(radix: u8) -> Result<Radix, Fault>
    ensures answered { Answers (radix_check radix) result }
    ensures same { IfOk result (λ known. known ≡ radix) }
{
    Radix::new(radix).ok_or(Fault::Radix)
}

pub fn check_length(most: usize, places: usize) -> Result<(), Fault>
    ensures { result ≡ answer (length_check most places) }
{
    if places > most {
        return Err(Fault::Length);
    }
    Ok(())
}

pub fn check_area(wanted: usize, room: usize) -> Result<(), Fault>
    ensures { result ≡ answer (area_check wanted room) }
{
    if room < wanted {
        return Err(Fault::Area);
    }
    Ok(())
}

/// The form that a caller hands in.
pub fn checked_form<'a>(radix: u8, form: &'a [i8]) -> Result<Numeral<'a, i8>, Fault>
    ensures answered { Answers (form_check radix form.now) result }
    ensures same { IfOk result (λ n. n ≡ record { radix = radix; digits = form.now }) }
{
    let radix = checked_radix(radix)?;
    check_length(MOST_PLACES, form.len())?;
    Numeral::checked(radix, form)
}

/// The plain digits that a caller hands in, their form having so much room.
pub fn checked_plain<'a>(radix: u8, plain: &'a [u8], room: usize) -> Result<Numeral<'a, u8>, Fault>
    ensures answered { Answers (recode_check radix plain.now room) result }
    ensures same { IfOk result (λ n. n ≡ record { radix = radix; digits = plain.now }) }
{
    let radix = checked_radix(radix)?;
    check_length(MOST_DIGITS, plain.len())?;
    let plain = Numeral::checked(radix, plain)?;
    check_area(plain.digits.len() + 1, room)?;
    Ok(plain)
}
