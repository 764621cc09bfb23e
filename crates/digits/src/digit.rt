//! What plain and signed digits have in common.

ghost use Rattle.std.specs.Prelude.{◌≡◌, ℕ, unsigned_abs};

/// A digit, plain or signed.
pub trait Digit: Copy {
    ghost size: { Self → ℕ };

    /// The digit without its sign.
    fn size(self) -> u8
        ensures { result ≡ size self };
}

impl Digit for u8 {
    ghost size = { λ digit. digit };

    fn size(self) -> u8 {
        self
    }
}

impl Digit for i8 {
    ghost size = { unsigned_abs };

    fn size(self) -> u8 {
        self.unsigned_abs()
    }
}
