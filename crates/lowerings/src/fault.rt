//! How this layer refuses.

ghost use Rattle.std.specs.Prelude.{◌≡◌};
ghost use Rattle.lowerings.specs.Faults.{told};

use faults::{Layer, Report};

/// Why a call on a lowering was refused.
#[derive(Clone, Copy, PartialEq, Eq, Debug)]
pub enum Fault {
    /// The radix is outside 2 to 16.
    Radix,
    /// The length is outside 1 to 120.
    Length,
    /// The character is none of the letters.
    Letter,
    /// The place is at or above the length.
    Place,
    /// The digit at this place is too large.
    Digit { place: usize },
    /// The source has another radix.
    Source,
    /// The constant would be too large.
    Large,
    /// The area is shorter than what is to be written.
    Area,
}

impl Fault {
    /// The fault's layer, number and place; a `From` would be a second name for it.
    pub fn report(&self) -> Report
        ensures { result ≡ told self.now }
    {
        let (number, place) = match *self {
            Fault::Radix => (1, 0),
            Fault::Length => (2, 0),
            Fault::Letter => (3, 0),
            Fault::Place => (4, 0),
            Fault::Digit { place } => (5, place),
            Fault::Source => (6, 0),
            Fault::Large => (20, 0),
            Fault::Area => (21, 0),
        };
        Report {
            layer: Layer::Lowering,
            number,
            place,
        }
    }
}
