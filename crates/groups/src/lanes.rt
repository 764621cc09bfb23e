//! The orders of sixteen lanes.
ghost use Rattle.groups.specs.Lanes.{LaneElement, lane_one, lane_times, lane_inv, Made};
ghost use Rattle.groups.specs.Arrangements.{lane_laws};

use crate::fault::Fault;
use crate::group::Group;

/// Which lane stands at each of sixteen places; an element has each of 0 to 15 exactly once.
#[derive(Clone, Copy, Debug)]
pub struct LaneOrder {
    pub lanes: [u8; 16],
}

impl LaneOrder {
    /// The element with these lanes.
    ///
    /// Refused at the first index whose lane is above 15 or was met before.
    pub fn from_lanes(lanes: [u8; 16]) -> Result<LaneOrder, Fault>
        ensures { Made lanes result }
    {
        for (index, lane) in lanes.iter().enumerate() {
            if *lane > 15 || lanes[..index].contains(lane) {
                return Err(Fault::Lane { index });
            }
        }
        Ok(LaneOrder { lanes })
    }
}

// `& 15` keeps every index inside sixteen lanes; at an element it changes nothing.
impl Group for LaneOrder {
    ghost element = { LaneElement };

    ghost one = { lane_one };

    ghost times = { lane_times };

    ghost inv = { lane_inv };

    ghost laws = { lane_laws };

    fn unit() -> LaneOrder {
        LaneOrder {
            lanes: [0, 1, 2, 3, 4, 5, 6, 7, 8, 9, 10, 11, 12, 13, 14, 15],
        }
    }

    fn product(self, other: LaneOrder) -> LaneOrder {
        let mut lanes = [0u8; 16];
        for (place, lane) in other.lanes.iter().enumerate() {
            lanes[place] = self.lanes[usize::from(*lane & 15)];
        }
        LaneOrder { lanes }
    }

    fn inverse(self) -> LaneOrder {
        let mut lanes = [0u8; 16];
        for (place, lane) in self.lanes.iter().enumerate() {
            lanes[usize::from(*lane & 15)] = place as u8;
        }
        LaneOrder { lanes }
    }
}
