//! The judgement of a form: which letters it meets, what it weighs, and what the lightest forms of its value weigh.

ghost use Rattle.std.specs.Prelude.{◌≡◌, ◌+◌, ◌-◌, ◌≤◌, min, length, pos, Decides};
ghost use Rattle.std.specs.Int.Digits.{number_from_digits};
ghost use Rattle.forms.specs.Neighbours.{Neighbours};
ghost use Rattle.forms.specs.Weight.{cost, LeastWeight};
ghost use Rattle.digits.specs.Judging.{PlainOf, Judged, Judges};

use crate::balanced::Balanced;
use crate::borrow_rule::BorrowRule;
use crate::checks::{MOST_PLACES, checked_form};
use crate::nonadjacent::NonAdjacent;
use crate::numeral::Numeral;
use crate::refusal::Fault;
use crate::settling::settle_form;
use crate::weighing::{cost_of, weigh};
use forms::{Measure, Radix};

/// What a form is, and what the lightest forms of its value weigh.
#[derive(Clone, Copy, PartialEq, Eq, Debug)]
pub struct Verdict {
    pub nonadjacent: bool,
    pub balanced: bool,
    pub count: u32,
    pub square: u32,
    pub least_count: u32,
    pub least_square: u32,
}

/// Whether all neighbours are as the rule asks.
fn meets<R: BorrowRule>(form: &Numeral<'_, i8>) -> bool
    ensures { Decides result (Neighbours (R.neighbours form.now.radix) form.now.digits) }
{
    let mut above = 0;
    for digit in form.digits {
        if !R::near(form.radix, above, *digit) {
            return false;
        }
        above = *digit;
    }
    true
}

/// The lighter of two ways to a place: with no borrow above it, and with one.
fn lighter(measure: Measure, radix: Radix, low: u32, high: u32, sum: u8) -> u32
    requires sum { sum ≤ radix }
    requires low { low ≤ 10000000 }
    requires high { high ≤ 10000000 }
    ensures value { result ≡ min (low + cost measure sum) (high + cost measure (radix - sum)) }
    ensures bound { result ≤ low + 65025 }
{
    let stays = low + cost_of(measure, sum);
    let borrows = high + cost_of(measure, radix.get() - sum);
    stays.min(borrows)
}

/// The least weight of the forms of what `plain` writes, by the least weights of each prefix and of one more than it.
fn least_weight(measure: Measure, plain: &Numeral<'_, u8>) -> u32
    requires { length plain.now.digits ≤ 121 }
    ensures { LeastWeight (cost measure) plain.now.radix (pos (number_from_digits plain.now.radix plain.now.digits)) result }
{
    let mut low = 0;
    let mut high = 1;
    for digit in plain.digits {
        let stays = lighter(measure, plain.radix, low, high, *digit);
        let rises = lighter(measure, plain.radix, low, high, *digit + 1);
        low = stays;
        high = rises;
    }
    low
}

/// The verdict on a form whose plain digits are at hand.
fn judge_settled(form: &Numeral<'_, i8>, plain: &Numeral<'_, u8>) -> Verdict
    requires few { length form.now.digits ≤ 121 }
    requires settled { PlainOf form.now plain.now }
    ensures { Judged form.now.radix form.now.digits result }
{
    Verdict {
        nonadjacent: meets::<NonAdjacent>(form),
        balanced: meets::<Balanced>(form),
        count: weigh(Measure::Count, form.digits).unwrap(),
        square: weigh(Measure::Square, form.digits).unwrap(),
        least_count: least_weight(Measure::Count, plain),
        least_square: least_weight(Measure::Square, plain),
    }
}

/// Tells which letters `form` meets, both its weights, and the least weights among all forms of its value.
pub fn judge(radix: u8, form: &[i8]) -> Result<Verdict, Fault>
    ensures { Judges radix form.now result }
{
    let form = checked_form(radix, form)?;
    // An array of the most places, since this layer has no heap.
    let mut digits = [0u8; MOST_PLACES];
    settle_form(&form, &mut digits);
    let plain = Numeral {
        radix: form.radix,
        digits: &digits[..form.digits.len()],
    };
    Ok(judge_settled(&form, &plain))
}
