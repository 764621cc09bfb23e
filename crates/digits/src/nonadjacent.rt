//! The rule of letter G.

ghost use Rattle.forms.specs.Recoded.{rule_g};
ghost use Rattle.forms.specs.Nonadjacent.{Beside};

use crate::borrow_rule::{BorrowRule, Placed, opposed};
use crate::canonical::canonical_step;
use crate::digit::Digit;
use forms::Radix;

/// The generalized non-adjacent form.
pub struct NonAdjacent;

impl BorrowRule for NonAdjacent {
    ghost borrow = { rule_g };

    ghost neighbours = { Beside };

    /// A digit borrows if it and the plain digit above reach the radix.
    #[tactic(auto, unfolding(forms::specs::Recoded::rule_g))]
    fn borrows(radix: Radix, above: u8, sum: u8) -> bool {
        sum + above >= radix.get()
    }

    fn step(radix: Radix, above: u8, plain: u8, borrowed: bool) -> Placed {
        if radix.get() == 2 {
            return canonical_step(above, plain, borrowed);
        }
        let borrows = NonAdjacent::borrows(radix, above, plain + u8::from(borrowed));
        Placed::of(radix, plain, borrowed, borrows)
    }

    fn near(radix: Radix, above: i8, digit: i8) -> bool {
        if (above + digit).size() >= radix.get() {
            return false;
        }
        !opposed(above, digit) || digit.size() < above.size()
    }
}
