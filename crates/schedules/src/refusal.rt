//! What the writer refuses. `report` is the public name of what a fault tells; a `From` would be a second one.

ghost use Rattle.std.specs.Prelude.{◌≡◌};
ghost use Rattle.schedules.specs.Refusals.{told_write};

use faults::{Layer, Report};

/// Why a call of the writer was refused.
#[derive(Clone, Copy, PartialEq, Eq, Debug)]
pub enum WriteFault {
    /// The radix is outside 2 to 16.
    Radix,
    /// A raise of 0, or past a sum of 120.
    Times,
    /// A size of 0, or not below the radix.
    Size,
    /// A use after a use, or a raise with no use before it.
    Turn,
    /// The area is shorter than what is to be written.
    Area,
}

impl WriteFault {
    /// The fault as layer, number and place; a writer's fault tells no place.
    pub fn report(&self) -> Report
        ensures { result ≡ told_write self.now }
    {
        let number = match *self {
            WriteFault::Radix => 1,
            WriteFault::Times => 4,
            WriteFault::Size => 5,
            WriteFault::Turn => 9,
            WriteFault::Area => 21,
        };
        Report {
            layer: Layer::Schedule,
            number,
            place: 0,
        }
    }
}
