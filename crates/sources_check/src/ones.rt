//! A make of source that the library does not know: a run of ones at radix 2.

ghost use Rattle.sources_check.specs.Ones.{ones};
ghost use Rattle.sources_check.specs.OnesLaws.{ones_laws};

use sources::source::Source;

/// The most digits that a source has.
const MOST: usize = 4096;

/// `count` ones, 4,096 at most.
#[derive(Drop)]
pub struct Ones {
    pub count: usize,
}

impl Source for Ones {
    ghost base = { λ _. 2 };

    ghost coming = { λ s. ones s.count };

    ghost laws = { ones_laws (λ s. s.count) };

    fn radix(&self) -> u8 {
        2
    }

    fn left(&self) -> usize {
        self.count.min(MOST)
    }

    fn next(&mut self) -> Option<u8> {
        self.count = self.count.min(MOST).checked_sub(1)?;
        Some(1)
    }
}
