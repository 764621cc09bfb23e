//! What tells the form of letter G or B, digit by digit.

ghost use Rattle.std.specs.Prelude.{◌≡◌, ℕ, ℤ, ◌+◌, ◌<◌, ◌≤◌, Decides, pos, ◌*ℤ◌, ◌<ℤ◌, unsigned_abs};
ghost use Rattle.forms.specs.Borrow.{borrow_if, digit, num};
ghost use Rattle.forms.specs.Recoded.{Rule};
ghost use Rattle.digits.specs.Steps.{Step};

use forms::Radix;

/// A digit of a form, and whether it borrows from the place above.
#[derive(Clone, Copy)]
pub struct Placed {
    pub digit: i8,
    pub borrows: bool,
}

impl Placed {
    /// What is left of a plain digit: with the borrow below it, and less the radix where it borrows itself.
    pub fn of(radix: Radix, plain: u8, below: bool, borrows: bool) -> Placed
        requires { plain < radix }
        ensures digit { result.digit ≡ digit radix (borrow_if borrows) (plain + num (borrow_if below)) }
        ensures borrows { result.borrows ≡ borrows }
    {
        let sum = (plain + u8::from(below)) as i8;
        let taken = if borrows { radix.get() as i8 } else { 0 };
        Placed {
            digit: sum - taken,
            borrows,
        }
    }
}

/// A rule over a digit and the one above it.
pub trait BorrowRule {
    // Which plain digits borrow.
    ghost borrow: { Rule };

    // What it asks of a digit and the one above.
    ghost neighbours: { ℕ → ℤ → ℤ → Type 0 };

    /// Whether a plain digit borrows, `sum` being it with the borrow below it.
    fn borrows(radix: Radix, above: u8, sum: u8) -> bool
        requires above { above < radix }
        requires sum { sum ≤ radix }
        ensures { borrow_if result ≡ borrow radix above sum };

    /// The digit of a form under the plain digit `above`, with the borrow below it.
    fn step(radix: Radix, above: u8, plain: u8, borrowed: bool) -> Placed
        requires above { above < radix }
        requires plain { plain < radix }
        ensures { Step borrow radix above (plain + num (borrow_if borrowed)) result }
    {
        let borrows = Self::borrows(radix, above, plain + u8::from(borrowed));
        Placed::of(radix, plain, borrowed, borrows)
    }

    /// Whether a digit and the one above it are as the rule asks.
    fn near(radix: Radix, above: i8, digit: i8) -> bool
        requires above { unsigned_abs above < radix }
        requires digit { unsigned_abs digit < radix }
        ensures { Decides result (neighbours radix above digit) };
}

/// Whether one digit is above 0 and the other below.
pub fn opposed(above: i8, digit: i8) -> bool
    ensures { Decides result ((above *ℤ digit) <ℤ pos 0) }
{
    above < 0 && digit > 0 || above > 0 && digit < 0
}
