//! The 32-bit numbers under wrapping addition.
ghost use Rattle.groups.specs.Words.{WordElement, word_one, word_times, word_inv, word_laws};

use crate::group::Group;

/// A number below 2^32; every record is an element.
#[derive(Clone, Copy, Debug)]
pub struct WrappedWord {
    pub value: u32,
}

impl Group for WrappedWord {
    ghost element = { WordElement };

    ghost one = { word_one };

    ghost times = { word_times };

    ghost inv = { word_inv };

    ghost laws = { word_laws };

    fn unit() -> WrappedWord {
        WrappedWord { value: 0 }
    }

    fn product(self, other: WrappedWord) -> WrappedWord {
        WrappedWord {
            value: self.value.wrapping_add(other.value),
        }
    }

    fn inverse(self) -> WrappedWord {
        WrappedWord {
            value: self.value.wrapping_neg(),
        }
    }
}
