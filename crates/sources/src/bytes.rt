//! Digits that stand in the caller's bytes.

ghost use Rattle.std.specs.Prelude.{◌≡◌, ◌<◌, ◌≤◌, ◌⊎◌, [], length, take, drop, take_while, nat_lt};
ghost use Rattle.sources.specs.Bytes.{is_radix, fitted, room, first, digits_from, Longest};
ghost use Rattle.sources.specs.BytesLaws.{bytes_laws};

use crate::source::Source;

/// The most digits that a byte source gives.
const MOST: usize = 4096;

/// A cursor over bytes that are digits themselves, not text.
///
/// A byte that is not below the radix ends it, as the end of the bytes does, and 4,096 digits.
/// At a radix outside 2 to 16 it is empty, and its radix is 2.
/// The position stands beside the bytes, and the radix as it was given, since what `new` promises speaks of all three.
#[derive(Drop)]
pub struct ByteSource<'a> {
    bytes: &'a [u8],
    given: usize,
    radix: u8,
}

impl<'a> ByteSource<'a> {
    /// The longest front of `bytes` whose bytes are all below the radix, 4,096 at most.
    pub fn new(bytes: &'a [u8], radix: u8) -> ByteSource<'a>
        ensures base { fitted result.radix ≡ fitted radix }
        ensures digits { digits_from result.radix result.given result.bytes.now ≡ digits_from radix 0 bytes.now }
        ensures longest { 2 ≤ radix → radix ≤ 16 → (fitted result.radix ≡ radix) × Longest radix 4096 bytes.now (digits_from result.radix result.given result.bytes.now) }
        ensures unfit { (radix < 2) ⊎ (16 < radix) → (fitted result.radix ≡ 2) × (digits_from result.radix result.given result.bytes.now ≡ []) }
    {
        ByteSource {
            bytes,
            given: 0,
            radix,
        }
    }

    /// The bytes that digits may still come from; at no radix there are none.
    fn rest(&self) -> &'a [u8]
        ensures { result.now ≡ drop self.now.given (take (room self.now.radix) self.now.bytes.now) }
    {
        let room = if is_radix(self.radix) { MOST } else { 0 };
        let end = room.min(self.bytes.len());
        self.bytes.get(self.given..end).unwrap_or(&[])
    }

    /// The first digit still to come.
    fn first(&self) -> Option<u8>
        ensures { result ≡ first (digits_from self.now.radix self.now.given self.now.bytes.now) }
    {
        let radix = self.radix();
        self.rest().first().copied().filter(|d| *d < radix)
    }
}

impl Source for ByteSource<'_> {
    ghost base = { λ s. fitted s.radix };

    ghost coming = { λ s. digits_from s.radix s.given s.bytes.now };

    ghost laws = { bytes_laws (λ s. s.radix) (λ s. s.given) (λ s. s.bytes.now) };

    fn radix(&self) -> u8 {
        if is_radix(self.radix) { self.radix } else { 2 }
    }

    fn left(&self) -> usize {
        digit_count(self.rest(), self.radix())
    }

    fn next(&mut self) -> Option<u8> {
        let digit = self.first()?;
        self.given += 1;
        Some(digit)
    }
}

/// Whether digits can be of this radix; the crate stands on no other, so it has the test itself.
fn is_radix(radix: u8) -> bool
    ensures { result ≡ is_radix radix }
{
    (2..=16).contains(&radix)
}

/// How many digits stand at the front of these bytes.
fn digit_count(bytes: &[u8], radix: u8) -> usize
    ensures { result ≡ length (take_while (λ b. nat_lt b radix) bytes.now) }
{
    bytes.iter().take_while(|b| **b < radix).count()
}
