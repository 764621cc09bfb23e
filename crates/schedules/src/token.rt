//! The token of an open schedule: plain numbers beside the area that it is written in.

ghost use Rattle.std.specs.Prelude.{◌+◌, ◌*◌, ◌≤◌};
ghost use Rattle.schedules.specs.Turns.{last_use};

use crate::word::Last;
use forms::Radix;

pub mod writing;

/// An open schedule. It is neither `Drop` nor `Copy`: one `close` or one `abandon` is owed.
pub struct Open {
    radix: Radix,
    /// How many words stand after the header.
    written: u8,
    /// What the raises sum to.
    raised: u8,
    last: Last,
    ghost little: { raised ≤ 120 },
    ghost few: { written ≤ last_use last + 2 * raised },
}
