//! What a digit source means.

ghost use Rattle.std.specs.Prelude.{◌≡◌, ℕ, List, length};
ghost use Rattle.sources.specs.Source.{Laws, Step};

/// A radix, and a finite list of digits still to come, the top one first.
pub trait Source {
    /// The radix.
    ghost base: { Self → ℕ };

    /// The digits still to come.
    ghost coming: { Self → List ℕ };

    /// What each make of source proves of the two.
    ghost laws: { Laws base coming };

    /// The radix, 2 to 16; it never changes.
    fn radix(&self) -> u8
        ensures { result ≡ base self.now };

    /// How many digits are still to come, 4,096 at most.
    fn left(&self) -> usize
        ensures { result ≡ length (coming self.now) };

    /// Takes the first digit off and gives it; at no digit none, and nothing changes.
    fn next(&mut self) -> Option<u8>
        ensures same { base self.new ≡ base self.old }
        ensures step { Step (coming self.old) self.old self.new (coming self.new) result };
}
