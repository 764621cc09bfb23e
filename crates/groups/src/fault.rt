//! What this crate refuses.
ghost use Rattle.std.specs.Prelude.{◌≡◌};
ghost use Rattle.groups.specs.Faults.{report_of};

use faults::{Layer, Report};

/// Why no element was made.
#[derive(Clone, Copy, PartialEq, Eq, Debug)]
pub enum Fault {
    /// The lane at `index` is above 15 or stands at an earlier index too.
    Lane { index: usize },
}

impl Fault {
    /// The fault as layer, number and place; a `From` would be a second name for it.
    pub fn report(&self) -> Report
        ensures { result ≡ report_of self.now }
    {
        match *self {
            Fault::Lane { index } => Report {
                layer: Layer::Group,
                number: 5,
                place: index,
            },
        }
    }
}
