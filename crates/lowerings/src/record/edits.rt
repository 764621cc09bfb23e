//! The calls that edit a lowering.

ghost use Rattle.std.specs.Prelude.{◌≡◌, suc, ◌^◌, ◌<◌, ◌≤◌, [], length, pos, ◌+ℤ◌, ◌*ℤ◌, Err, IfOk, unsigned_abs};
ghost use Rattle.std.specs.Int.Digits.{number_from_digits, AllBelowBase};
ghost use Rattle.lowerings.specs.Constants.{number_of};
ghost use Rattle.lowerings.specs.Record.{Opens, Done, Becomes};
ghost use Rattle.digits.specs.Signed.{sided_number};
ghost use Rattle.lowerings.specs.declared.fault.Fault.TheVariants as fault;
ghost use Rattle.lowerings.specs.Tally.{load, bump, negate, shift, choose, signed_by};

use crate::carrying::add_digit;
use crate::constant::{Constant, MOST_DIGITS};
use crate::fault::Fault;
use crate::record::Lowering;
use forms::{Letter, Radix};
use sources::source::Source;
use sources::window::last_digits;

impl Lowering {
    fn zero(radix: u8, length: usize) -> Result<Lowering, Fault>
        ensures { Opens radix length result }
    {
        let radix = Radix::new(radix).ok_or(Fault::Radix)?;
        if !(1..=MOST_DIGITS).contains(&length) {
            return Err(Fault::Length);
        }
        Ok(Lowering::of(Constant::zero(radix, length), Letter::G))
    }

    /// Takes the number that `wide` writes with a sign, one digit more than there is room for, if it is not too large.
    ///
    /// Its length is asked here and where it is written: it is a slice of an array, which a source fills digit by digit.
    fn accept(&mut self, negative: bool, wide: &[u8]) -> Result<(), Fault>
        requires places { length wide.now ≡ suc self.old.constant.length }
        requires digits { AllBelowBase self.old.constant.radix wide.now }
        ensures { Becomes (sided_number self.old.constant.radix negative wide.now) self.old self.new result }
    {
        if wide[0] != 0 {
            return Err(Fault::Large);
        }
        let constant = Constant::of(self.constant.radix, negative, &wide[1..]);
        *self = Lowering::of(constant, self.letter);
        Ok(())
    }

    fn put_letter(&mut self, character: char) -> Result<(), Fault>
        ensures { Done (choose character) self.old self.new result }
    {
        let letter = Letter::try_from(character).map_err(|_| Fault::Letter)?;
        *self = Lowering::of(self.constant, letter);
        Ok(())
    }

    fn turn_sign(&mut self) -> Result<(), Fault>
        ensures { Done negate self.old self.new result }
    {
        *self = Lowering::of(self.constant.opposite(), self.letter);
        Ok(())
    }

    fn move_up(&mut self) -> Result<(), Fault>
        ensures { Done shift self.old self.new result }
    {
        let wide = self.constant.raised();
        let length = self.constant.length;
        self.accept(self.constant.negative, &wide[..length + 1])
    }

    /// Reads the source's digits into `wide`, one more than there is room for, and takes their number.
    fn read_wide<S: Source>(
        &mut self,
        source: &mut S,
        negate: bool,
        wide: &mut [u8],
    ) -> Result<(), Fault>
        requires places { length wide.old ≡ suc self.old.constant.length }
        requires radix { S.base source.old ≡ self.old.constant.radix }
        ensures done { Becomes (signed_by negate (number_from_digits (S.base source.old) (S.coming source.old))) self.old self.new result }
        ensures spent { S.coming source.new ≡ [] }
        ensures same { S.base source.new ≡ S.base source.old }
    {
        if last_digits(source, wide) {
            return Err(Fault::Large);
        }
        self.accept(negate, wide)
    }

    fn take_number<S: Source>(&mut self, source: &mut S, negate: bool) -> Result<(), Fault>
        ensures done { Done (load (S.base source.old) (S.coming source.old) negate) self.old self.new result }
        ensures spent { ¬ (result ≡ Err fault.Source) → S.coming source.new ≡ [] }
        ensures same { S.base source.new ≡ S.base source.old }
        ensures unread { result ≡ Err fault.Source → source.new ≡ source.old }
    {
        if source.radix() != self.constant.radix.get() {
            return Err(Fault::Source);
        }
        // An array, since a lowering's calls have no heap.
        let mut wide = [0u8; MOST_DIGITS + 1];
        let length = self.constant.length;
        self.read_wide(source, negate, &mut wide[..length + 1])
    }

    /// Adds a digit at a place, by way of `wide`, one digit more than there is room for.
    fn add_wide(&mut self, digit: i8, place: usize, wide: &mut [u8]) -> Result<(), Fault>
        requires places { length wide.old ≡ suc self.old.constant.length }
        requires digit { unsigned_abs digit < self.old.constant.radix }
        requires place { place < self.old.constant.length }
        ensures { Becomes (number_of self.old.constant +ℤ digit *ℤ pos (self.old.constant.radix ^ place)) self.old self.new result }
    {
        let negative = add_digit(&self.constant, digit, place, wide);
        self.accept(negative, wide)
    }

    fn add(&mut self, digit: i8, place: usize) -> Result<(), Fault>
        ensures { Done (bump digit place) self.old self.new result }
    {
        if place >= self.constant.length {
            return Err(Fault::Place);
        }
        if digit.unsigned_abs() >= self.constant.radix.get() {
            return Err(Fault::Digit { place });
        }
        // An array, since a lowering's calls have no heap.
        let mut wide = [0u8; MOST_DIGITS + 1];
        let length = self.constant.length;
        self.add_wide(digit, place, &mut wide[..length + 1])
    }
}
