//! The words of a schedule, and how one is spelled in 32 bits.

ghost use Rattle.std.specs.Prelude.{◌≡◌};
ghost use Rattle.schedules.specs.Words.{spelled, read, Reading};

/// A word that was read.
#[derive(Clone, Copy, PartialEq, Eq, Debug)]
pub enum Word {
    /// How many words follow, and the radix.
    Header { count: u8, radix: u8 },
    /// The first use: adds its signed size.
    Take { size: u8, negative: bool },
    /// Multiplies by the radix, so often.
    Raise { times: u8 },
    /// A later use: adds its signed size.
    Multiply { size: u8, negative: bool },
}

/// Why a word cannot be read.
#[derive(Clone, Copy, PartialEq, Eq, Debug)]
pub enum Misread {
    /// A bit is set that the word's kind has no meaning for.
    StrayBit,
    /// The header's count marks a schedule that was never closed.
    Unclosed,
    /// The header's radix is outside 2 to 16.
    Radix,
    /// A use's size is 0, or not below the radix.
    Size,
    /// A raise is outside 1 to 120.
    Times,
}

/// What the last word after a header was.
#[derive(Clone, Copy)]
pub enum Last {
    Nothing,
    Use,
    Raise,
}

/// The first byte of a take, of a raise and of a multiply; a header's is 0.
const TAKE: u8 = 0x40;

const RAISE: u8 = 0x80;

const MULTIPLY: u8 = 0xC0;

/// Reads the bits of one word, wherever it stands: the conversion below, under the name that callers have.
pub fn read_word(word: u32) -> Result<Word, Misread>
    ensures answered { result ≡ read word }
    ensures meant { Reading word result }
{
    Word::try_from(word)
}

impl TryFrom<u32> for Word {
    type Error = Misread;

    ghost try_from_gives = { λ w r. r ≡ read w };

    fn try_from(word: u32) -> Result<Word, Misread> {
        match word.to_be_bytes() {
            [0, 0, count, radix] => Ok(Word::Header { count, radix }),
            [TAKE, 0, sign @ 0..=1, size] => Ok(Word::Take {
                size,
                negative: sign == 1,
            }),
            [RAISE, 0, 0, times] => Ok(Word::Raise { times }),
            [MULTIPLY, 0, sign @ 0..=1, size] => Ok(Word::Multiply {
                size,
                negative: sign == 1,
            }),
            _ => Err(Misread::StrayBit),
        }
    }
}

/// The 32 bits of a word.
impl From<Word> for u32 {
    ghost from_gives = { λ x r. r ≡ spelled x };

    fn from(word: Word) -> u32 {
        u32::from_be_bytes(match word {
            Word::Header { count, radix } => [0, 0, count, radix],
            Word::Take { size, negative } => [TAKE, 0, u8::from(negative), size],
            Word::Raise { times } => [RAISE, 0, 0, times],
            Word::Multiply { size, negative } => [MULTIPLY, 0, u8::from(negative), size],
        })
    }
}
