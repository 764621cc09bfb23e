//! How this layer refuses.

ghost use Rattle.std.specs.Prelude.{◌≡◌};
ghost use Rattle.digits.specs.Refusals.{told};

use faults::{Layer, Report};

/// Why a call over digits was refused.
#[derive(Clone, Copy, PartialEq, Eq, Debug)]
pub enum Fault {
    /// The radix is outside 2 to 16.
    Radix,
    /// There are too many places.
    Length,
    /// A digit is out of range: the topmost, by its place from the low end.
    Digit { place: usize },
    /// The area is shorter than what is to be written.
    Area,
}

impl Fault {
    /// The fault's layer, number and place; a `From` would be a second name for it.
    pub fn report(&self) -> Report
        ensures { result ≡ told self.now }
    {
        let (number, place) = match *self {
            Fault::Radix => (1, 0),
            Fault::Length => (2, 0),
            Fault::Digit { place } => (5, place),
            Fault::Area => (21, 0),
        };
        Report {
            layer: Layer::Digits,
            number,
            place,
        }
    }
}
