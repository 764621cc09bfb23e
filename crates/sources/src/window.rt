//! The last digits of a source.

ghost use Rattle.std.specs.Prelude.{◌≡◌, ◌^◌, ◌<◌, false, [], ◌∷◌, ◌++◌, length, drop, replicate, nat_le, slice_index};
ghost use Rattle.std.specs.Int.Digits.{number_from_digits, AllBelowBase};
ghost use Rattle.sources.specs.Window.{last_digits, fallen, nonzero};

use crate::source::Source;
use std::mem;

/// Reads a source to its end and puts its last digits into `window`, zeros before them where there are fewer.
///
/// Tells whether a digit other than 0 fell out, that is whether the number is too large for the window.
pub fn last_digits<S: Source>(source: &mut S, window: &mut [u8]) -> bool
    ensures last { window.new ≡ last_digits (length window.old) (S.coming source.old) }
    ensures below { AllBelowBase (S.base source.old) window.new }
    ensures fell { result ≡ nonzero (fallen (length window.old) (S.coming source.old)) }
    ensures large { result ≡ nat_le (S.base source.old ^ length window.old) (number_from_digits (S.base source.old) (S.coming source.old)) }
    ensures value { result ≡ false → number_from_digits (S.base source.old) window.new ≡ number_from_digits (S.base source.old) (S.coming source.old) }
    ensures spent { S.coming source.new ≡ [] }
    ensures same { S.base source.new ≡ S.base source.old }
{
    window.fill(0);
    let mut fell = false;
    while let Some(digit) = source.next() {
        fell |= shift(window, digit) != 0;
    }
    fell
}

/// Puts `digit` in at the end of `window`, and gives back what falls out at its front.
fn shift(window: &mut [u8], digit: u8) -> u8
    ensures window { window.new ≡ drop 1 (window.old ++ (digit ∷ [])) }
    ensures out { result ≡ slice_index (window.old ++ (digit ∷ [])) 0 }
{
    let Some(first) = window.first_mut() else {
        return digit;
    };
    let out = mem::replace(first, digit);
    window.rotate_left(1);
    out
}
