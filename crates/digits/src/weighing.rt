//! The weights of a form.

ghost use Rattle.std.specs.Prelude.{◌≡◌, ◌*◌, ◌≤◌};
ghost use Rattle.forms.specs.Letters.{measure};
ghost use Rattle.forms.specs.Weight.{cost};
ghost use Rattle.digits.specs.Weighing.{weighed};

use crate::checks::{MOST_PLACES, check_length};
use crate::digit::Digit;
use crate::refusal::Fault;
use forms::{Letter, Measure};

/// The measure that a letter's forms are lightest by: something that a letter has, and no conversion of it.
pub fn measure_of(letter: Letter) -> Measure
    ensures { result ≡ measure letter }
{
    match letter {
        Letter::G => Measure::Count,
        Letter::B => Measure::Square,
        Letter::L => Measure::Count,
    }
}

/// What a digit of this size weighs, by the caller's measure.
pub fn cost_of(measure: Measure, size: u8) -> u32
    ensures value { result ≡ cost measure size }
    ensures bound { result ≤ 65025 }
{
    match measure {
        Measure::Count => u32::from(size).min(1),
        Measure::Square => u32::from(size) * u32::from(size),
    }
}

/// What the digits of `form` weigh together.
pub fn weigh(measure: Measure, form: &[i8]) -> Result<u32, Fault>
    ensures { result ≡ weighed measure form.now }
{
    check_length(MOST_PLACES, form.len())?;
    let mut total = 0;
    for digit in form {
        total += cost_of(measure, digit.size());
    }
    Ok(total)
}
