//! The mirror image of a form: the form of the opposite number.

ghost use Rattle.std.specs.Prelude.{◌≡◌};
ghost use Rattle.digits.specs.Mirroring.{Mirrors};
ghost use Rattle.digits.specs.Refusals.{answer, form_check};

use crate::checks::checked_form;
use crate::refusal::Fault;

/// Negates every digit of `form`.
pub fn mirror(radix: u8, form: &mut [i8]) -> Result<(), Fault>
    ensures answered { result ≡ answer (form_check radix form.old) }
    ensures written { Mirrors radix form.old form.new result }
{
    checked_form(radix, form)?;
    for digit in form.iter_mut() {
        *digit = -*digit;
    }
    Ok(())
}
