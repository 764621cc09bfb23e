//! The rule of letter B.

ghost use Rattle.forms.specs.Recoded.{rule_b};
ghost use Rattle.forms.specs.Balanced.{Half};

use crate::borrow_rule::{BorrowRule, opposed};
use crate::digit::Digit;
use forms::Radix;

/// The balanced non-adjacent form.
pub struct Balanced;

impl BorrowRule for Balanced {
    ghost borrow = { rule_b };

    ghost neighbours = { Half };

    /// More than a half borrows; a half does under an upper half.
    #[tactic(auto, unfolding(forms::specs::Recoded::rule_b))]
    fn borrows(radix: Radix, above: u8, sum: u8) -> bool {
        let radix = radix.get();
        if 2 * sum == radix {
            2 * above >= radix
        } else {
            2 * sum > radix
        }
    }

    fn near(radix: Radix, above: i8, digit: i8) -> bool {
        if 2 * digit.size() != radix.get() {
            return 2 * digit.size() < radix.get();
        }
        above.size() < digit.size() && !opposed(above, digit)
    }
}
