//! The canonical recoding at radix 2, as a table: one read for each digit.

ghost use Rattle.std.specs.Prelude.{◌≡◌, ◌+◌, ◌<◌};
ghost use Rattle.forms.specs.Borrow.{borrow_if, num};
ghost use Rattle.forms.specs.Recoded.{rule_g};
ghost use Rattle.digits.specs.Steps.{Step, row_digit, row_borrow};

use crate::borrow_rule::Placed;

/// Digit and next carry in a row, by 4 times the next bit plus 2 times the bit plus the carry.
static ROWS: [(i8, bool); 8] = [
    (0, false),
    (1, false),
    (1, false),
    (0, true),
    (0, false),
    (-1, true),
    (-1, true),
    (0, true),
];

#[tactic(auto, unfolding(forms::specs::Recoded::rule_g))]
fn row(index: usize) -> Placed
    requires { index < 8 }
    ensures digit { result.digit ≡ row_digit index }
    ensures borrows { borrow_if result.borrows ≡ row_borrow index }
{
    let (digit, borrows) = ROWS[index];
    Placed { digit, borrows }
}

/// One digit from the right at radix 2.
pub fn canonical_step(next: u8, bit: u8, carry: bool) -> Placed
    requires next { next < 2 }
    requires bit { bit < 2 }
    ensures { Step rule_g 2 next (bit + num (borrow_if carry)) result }
{
    row(usize::from(4 * next + 2 * bit + u8::from(carry)))
}
