//! The constant that a lowering holds.

ghost use Rattle.std.specs.Prelude.{◌≡◌, ℕ, ◌<◌, ◌≤◌, true, take, slice_index};
ghost use Rattle.std.specs.Int.Digits.{number_from_digits};

use forms::Radix;

mod calls;

/// The most digits that a constant has; they stand at the front of an array, since a record has no heap.
pub const MOST_DIGITS: usize = 120;

/// A constant in as many digits as it was opened with, and its sign, which zero has not.
#[derive(Clone, Copy)]
pub struct Constant {
    pub radix: Radix,
    pub length: usize,
    pub negative: bool,
    /// The digits are the first `length`, top first.
    plain: [u8; MOST_DIGITS],
    ghost some: { 1 ≤ length },
    ghost few: { length ≤ 120 },
    ghost digits: { (k : ℕ) → k < length → slice_index plain k < radix },
    ghost nonzero: { negative ≡ true → 0 < number_from_digits radix (take length plain) },
}
