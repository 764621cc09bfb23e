//! What a group is.
ghost use Rattle.std.specs.Prelude.{◌≡◌};
ghost use Rattle.groups.specs.Laws.{Laws};

/// A group whose elements are records of the type that implements it.
///
/// The laws are owed for elements only; any other record gets some record for an answer.
/// No `==` is asked or derived: two elements are equal when their records are, and of other records it would say nothing.
pub trait Group: Copy {
    // Which records are elements.
    ghost element: { Self → Type 0 };

    ghost one: { Self };

    ghost times: { Self → Self → Self };

    ghost inv: { Self → Self };

    /// The element that changes nothing in a product.
    fn unit() -> Self
        ensures { result ≡ one };

    /// The product, `self` on the left.
    fn product(self, other: Self) -> Self
        ensures { result ≡ times self other };

    /// What gives the unit in a product with `self`.
    fn inverse(self) -> Self
        ensures { result ≡ inv self };

    ghost laws: { Laws element one times inv };
}
