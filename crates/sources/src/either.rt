//! One of two makes of source.

ghost use Rattle.sources.specs.Either.{either};
ghost use Rattle.sources.specs.EitherLaws.{either_laws};

use crate::source::Source;

/// A source of either make, so that one list may hold both.
///
/// No `Result`, since neither make is a failure of the other.
#[derive(Drop)]
pub enum Either<A, B> {
    One(A),
    Other(B),
}

impl<A: Source, B: Source> Source for Either<A, B> {
    ghost base = { either A.Source.base B.Source.base };

    ghost coming = { either A.Source.coming B.Source.coming };

    ghost laws = { either_laws A.Source.laws B.Source.laws };

    fn radix(&self) -> u8 {
        match self {
            Either::One(a) => a.radix(),
            Either::Other(b) => b.radix(),
        }
    }

    fn left(&self) -> usize {
        match self {
            Either::One(a) => a.left(),
            Either::Other(b) => b.left(),
        }
    }

    fn next(&mut self) -> Option<u8> {
        match self {
            Either::One(a) => a.next(),
            Either::Other(b) => b.next(),
        }
    }
}
