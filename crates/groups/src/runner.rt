//! Runners: a value of a group that is raised and multiplied step by step.
//!
//! Neither type is `Copy` or `Drop`, so a runner is used once and has to be ended.
ghost use Rattle.std.specs.Prelude.{◌≡◌};
ghost use Rattle.groups.specs.Powers.{power};

use crate::group::Group;
use std::marker::PhantomData;

/// A runner that has taken nothing.
pub struct Idle<G: Group> {
    group: PhantomData<G>,
}

/// A runner that holds a value.
pub struct Going<G: Group> {
    value: G,
}

impl<G: Group> Idle<G> {
    /// A runner for a new calculation.
    pub fn new() -> Idle<G> {
        Idle { group: PhantomData }
    }

    /// Takes the first value.
    pub fn take(self, first: G) -> Going<G>
        ensures { result.value ≡ first }
    {
        let Idle { group: _ } = self;
        Going { value: first }
    }

    /// Ends with the unit.
    pub fn end(self) -> G
        ensures { result ≡ G.one }
    {
        let Idle { group: _ } = self;
        G::unit()
    }
}

impl<G: Group> Going<G> {
    /// Raises the value to the power `exponent`.
    pub fn raise(self, exponent: u8) -> Going<G>
        ensures { result.value ≡ power G.one G.times self.value exponent }
    {
        let Going { value } = self;
        let mut raised = G::unit();
        for _ in 0..exponent {
            raised = raised.product(value);
        }
        Going { value: raised }
    }

    /// Multiplies the value by `factor`, on the right.
    pub fn multiply(self, factor: G) -> Going<G>
        ensures { result.value ≡ G.times self.value factor }
    {
        let Going { value } = self;
        Going {
            value: value.product(factor),
        }
    }

    /// Ends with the value.
    pub fn end(self) -> G
        ensures { result ≡ self.value }
    {
        let Going { value: held } = self;
        held
    }
}
