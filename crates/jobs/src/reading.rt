//! The reader of one job line, a byte at a time.

ghost use Rattle.std.specs.Prelude.{◌≡◌};
ghost use Rattle.jobs.specs.Reading.{digit, after_digits, step, read_from};

use forms::{Letter, Radix};

/// The most digits that a job line has.
pub const MOST_DIGITS: usize = 120;

/// What a lawful line says, but for its digits: there are `count` of them.
#[derive(Clone, Copy)]
pub struct Shape {
    pub letter: Letter,
    pub radix: Radix,
    pub negative: bool,
    pub count: usize,
}

/// A line that is not lawful: the first column, from 1, at which no lawful line goes on.
#[derive(Clone, Copy)]
pub struct Unlawful {
    pub column: usize,
}

/// How far a line has been read.
#[derive(Clone, Copy)]
pub enum Stage {
    Start,
    Lettered(Letter),
    Spaced(Letter),
    /// A `1` was read, the first digit of a radix from 10 on.
    Teen(Letter),
    Based(Letter, Radix),
    /// So many digits were read as the shape counts.
    Digits(Shape),
    Done(Shape),
}

/// The digit that a byte spells.
pub fn digit_of(byte: u8) -> Option<u8>
    ensures { result ≡ digit byte }
{
    match byte {
        b'0'..=b'9' => Some(byte - b'0'),
        b'A'..=b'F' => Some(byte - b'A' + 10),
        _ => None,
    }
}

impl Shape {
    /// A digit, a minus before all digits, or the line feed after at least one.
    fn after_digits(self, byte: u8) -> Option<Stage>
        ensures { result ≡ after_digits self byte }
    {
        match (digit_of(byte), byte) {
            (Some(digit), _) if digit < self.radix.get() && self.count < MOST_DIGITS => {
                Some(Stage::Digits(Shape {
                    count: self.count + 1,
                    ..self
                }))
            }
            (None, b'-') if self.count == 0 && !self.negative => Some(Stage::Digits(Shape {
                negative: true,
                ..self
            })),
            (None, b'\n') if self.count > 0 => Some(Stage::Done(self)),
            _ => None,
        }
    }
}

impl Stage {
    /// Reads one byte more, unless no lawful line goes on with it.
    fn step(self, byte: u8) -> Option<Stage>
        ensures { result ≡ step self byte }
    {
        match self {
            Stage::Start => Some(Stage::Lettered(Letter::try_from(char::from(byte)).ok()?)),
            Stage::Lettered(letter) if byte == b' ' => Some(Stage::Spaced(letter)),
            Stage::Spaced(letter) => match byte {
                b'1' => Some(Stage::Teen(letter)),
                b'2'..=b'9' => Some(Stage::Based(letter, Radix::new(byte - b'0')?)),
                _ => None,
            },
            Stage::Teen(letter) if (b'0'..=b'6').contains(&byte) => {
                Some(Stage::Based(letter, Radix::new(byte - b'0' + 10)?))
            }
            Stage::Based(letter, radix) if byte == b' ' => Some(Stage::Digits(Shape {
                letter,
                radix,
                negative: false,
                count: 0,
            })),
            Stage::Digits(shape) => shape.after_digits(byte),
            _ => None,
        }
    }
}

/// The shape of a line, if it is lawful.
pub fn read_line(line: &[u8]) -> Result<Shape, Unlawful>
    ensures { result ≡ read_from Stage.Start 1 line.now }
{
    let mut stage = Stage::Start;
    for (i, byte) in line.iter().enumerate() {
        stage = stage.step(*byte).ok_or(Unlawful { column: i + 1 })?;
    }
    match stage {
        Stage::Done(shape) => Ok(shape),
        _ => Err(Unlawful {
            column: line.len() + 1,
        }),
    }
}
