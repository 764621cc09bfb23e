//! Powers by integers, and their laws.
ghost use Rattle.std.specs.Prelude.{◌≡◌};
ghost use Rattle.groups.specs.Powers.{power, powerℤ, PowerLaws};

use crate::group::Group;
use crate::runner::Idle;

/// The power of `x` by `exponent`. The contract also states the laws of powers by all integers.
pub fn integer_power<G: Group>(x: G, exponent: i8) -> G
    ensures value { result ≡ powerℤ G.one G.times G.inv x exponent }
    ensures laws { PowerLaws G.element G.one G.times G.inv }
{
    let raised = natural_power(x, exponent.unsigned_abs());
    if exponent < 0 {
        raised.inverse()
    } else {
        raised
    }
}

fn natural_power<G: Group>(x: G, exponent: u8) -> G
    ensures { result ≡ power G.one G.times x exponent }
{
    Idle::new().take(x).raise(exponent).end()
}
