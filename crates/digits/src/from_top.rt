//! The star form, found from the top with a borrow, one digit of memory and two digits of look-ahead.

ghost use Rattle.std.specs.Prelude.{◌≡◌, suc, ◌+◌, ◌<◌, ◌++◌, length, drop};
ghost use Rattle.forms.specs.Borrow.{borrow_if, digit, num};
ghost use Rattle.forms.specs.Star.{ahead, turn, memory, star};

use crate::borrow_rule::Placed;
use crate::numeral::Numeral;
use forms::Radix;

/// The walk at a place: the borrow and the memory that it holds, the plain digit and the two below it.
#[derive(Clone, Copy)]
struct Walk {
    radix: Radix,
    borrowed: bool,
    memory: u8,
    here: u8,
    next: u8,
    after: u8,
    ghost memory_small: { memory < radix },
    ghost here_small: { here < radix },
    ghost next_small: { next < radix },
    ghost after_small: { after < radix },
}

impl Walk {
    /// The new borrow where the next digit meets the memory: the digits further down decide.
    fn decided_ahead(&self) -> bool
        ensures { borrow_if result ≡ ahead self.now.radix (borrow_if self.now.borrowed) (self.now.next + self.now.after) }
    {
        let radix = self.radix.get();
        let sum = self.next + self.after;
        if self.borrowed {
            sum >= radix - 1
        } else {
            sum >= radix
        }
    }

    /// The new borrow.
    #[tactic(auto, unfolding(forms::specs::Star::turn))]
    fn borrows(&self) -> bool
        ensures { borrow_if result ≡ turn self.now.radix (borrow_if self.now.borrowed) self.now.memory self.now.here self.now.next self.now.after }
    {
        let radix = self.radix.get();
        let sum = self.here + self.next;
        if sum != radix - 1 {
            return sum >= radix;
        }
        if self.next != radix - 1 - self.memory {
            return self.borrowed;
        }
        self.decided_ahead()
    }

    /// The new memory: the next digit, unless it and the one above make one less than the radix.
    #[tactic(auto, unfolding(forms::specs::Star::memory))]
    fn remembers(&self) -> u8
        ensures told { result ≡ memory self.now.radix self.now.memory self.now.here self.now.next }
        ensures small { result < self.now.radix }
    {
        let radix = self.radix.get();
        if self.here + self.next == radix - 1 {
            self.memory
        } else {
            self.next
        }
    }

    /// The digit between the borrow that is held and the new one.
    fn digit(&self, borrows: bool) -> i8
        ensures { result ≡ digit self.now.radix (borrow_if self.now.borrowed) (self.now.here + num (borrow_if borrows)) }
    {
        // The new borrow stands below the digit; the one that is held is the digit's own.
        Placed::of(self.radix, self.here, borrows, self.borrowed).digit
    }
}

/// Writes the star form of `plain` into the front of `form`.
pub fn recode_from_top(plain: &Numeral<'_, u8>, form: &mut [i8])
    requires { length plain.now.digits < length form.old }
    ensures { form.new ≡ star plain.now.radix plain.now.digits ++ drop (suc (length plain.now.digits)) form.old }
{
    let mut borrowed = false;
    let mut memory = 0;
    // By index: three digits are read around it, past either end, and one is written.
    for i in 0..plain.digits.len() + 1 {
        let walk = Walk {
            radix: plain.radix,
            borrowed,
            memory,
            here: plain.above(i),
            next: plain.at(i),
            after: plain.at(i + 1),
        };
        let borrows = walk.borrows();
        form[i] = walk.digit(borrows);
        memory = walk.remembers();
        borrowed = borrows;
    }
}
