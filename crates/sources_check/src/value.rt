//! What the contracts say together: bytes, grouped and read into a window.

ghost use Rattle.std.specs.Prelude.{◌≡◌, false, length};
ghost use Rattle.std.specs.Int.Digits.{number_from_digits};
ghost use Rattle.sources.specs.Bytes.{fitted, digits_from};
ghost use Rattle.sources.specs.Grouping.{group_base, group_digits};
ghost use Rattle.sources.specs.Window.{last_digits};

use sources::bytes::ByteSource;
use sources::grouping::Grouping;
use sources::window::last_digits;

/// The last digits of some bytes, grouped, and whether a digit other than 0 fell out; if none did, the window has the bytes' number.
///
/// The contract speaks of bytes, radix and width one by one, and so do the parameters.
pub fn last_grouped(bytes: &[u8], radix: u8, width: u8, window: &mut [u8]) -> bool
    ensures last { window.new ≡ last_digits (length window.old) (group_digits (fitted radix) width (digits_from radix 0 bytes.now)) }
    ensures value { result ≡ false → number_from_digits (group_base (fitted radix) width) window.new ≡ number_from_digits (fitted radix) (digits_from radix 0 bytes.now) }
{
    let mut source = Grouping::new(ByteSource::new(bytes, radix), width);
    last_digits(&mut source, window)
}
