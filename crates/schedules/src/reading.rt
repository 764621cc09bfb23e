//! Reading the words of a schedule, to the first that cannot stand.

ghost use Rattle.std.specs.Prelude.{◌≡◌, drop};
ghost use Rattle.schedules.specs.Checks.{answer};
ghost use Rattle.schedules.specs.Reading.{header_check, range_check, word_at, step_at, header_of, heading_of, going_on, step_in, inspected, inspected_for};
ghost use Rattle.schedules.specs.Inspection.{Inspects};

use crate::fault::{RunFault, ScheduleFault, WordFault};
use crate::word::{Last, Misread, Word, read_word};
use forms::Radix;

/// The most that the raises of a schedule may sum to.
pub const MOST_RAISED: u8 = 120;

/// The count by which the format marks a schedule as not closed.
pub const UNCLOSED: u8 = 0xFF;

/// What a lawful schedule's header says.
#[derive(Clone, Copy, PartialEq, Eq, Debug)]
pub struct Heading {
    pub radix: u8,
    /// How many words follow the header.
    pub count: u8,
}

/// How far a schedule was read.
#[derive(Clone, Copy)]
struct Progress {
    last: Last,
    raised: u8,
}

impl Heading {
    fn check(&self) -> Result<(), Misread>
        ensures { result ≡ answer (header_check self.now.count self.now.radix) }
    {
        if self.count == UNCLOSED {
            return Err(Misread::Unclosed);
        }
        Radix::new(self.radix).map(|_| ()).ok_or(Misread::Radix)
    }
}

/// Whether a word after the header has its number in range.
fn check_range(radix: u8, word: Word) -> Result<(), Misread>
    ensures { result ≡ answer (range_check radix word) }
{
    match word {
        Word::Take { size, .. } | Word::Multiply { size, .. } if !(1..radix).contains(&size) => {
            Err(Misread::Size)
        }
        Word::Raise { times } if !(1..=MOST_RAISED).contains(&times) => Err(Misread::Times),
        _ => Ok(()),
    }
}

/// The word at `place`, by its bits alone.
fn word_at(place: usize, word: u32) -> Result<Word, WordFault>
    ensures { result ≡ word_at place word }
{
    read_word(word).map_err(|why| WordFault { why, place })
}

/// The word at `place` after the header, its number in range.
fn step_at(radix: u8, place: usize, word: u32) -> Result<Word, WordFault>
    ensures { result ≡ step_at radix place word }
{
    let word = word_at(place, word)?;
    check_range(radix, word).map_err(|why| WordFault { why, place })?;
    Ok(word)
}

/// The first word as a header.
fn header_of(word: u32) -> Result<Heading, ScheduleFault>
    ensures { result ≡ header_of word }
{
    let Word::Header { count, radix } = word_at(0, word)? else {
        return Err(ScheduleFault::Turn { place: 0 });
    };
    let heading = Heading { radix, count };
    heading.check().map_err(|why| WordFault { why, place: 0 })?;
    Ok(heading)
}

fn read_heading(words: &[u32]) -> Result<Heading, ScheduleFault>
    ensures { result ≡ heading_of words.now }
{
    let word = words.first().ok_or(ScheduleFault::Missing { place: 0 })?;
    header_of(*word)
}

impl Progress {
    const START: Progress = Progress {
        last: Last::Nothing,
        raised: 0,
    };

    /// Reads the word at `place`.
    fn advance(self, radix: u8, words: &[u32], place: usize) -> Result<Progress, ScheduleFault>
        ensures { result ≡ step_in radix self place (drop place words.now) }
    {
        let word = words.get(place).ok_or(ScheduleFault::Missing { place })?;
        self.go_on(place, step_at(radix, place, *word)?)
    }

    /// One word further: a take first, then raises and multiplies in turn.
    fn go_on(self, place: usize, word: Word) -> Result<Progress, ScheduleFault>
        ensures { result ≡ going_on self.last self.raised place word }
    {
        let (last, raised) = match (self.last, word) {
            (Last::Nothing, Word::Take { .. }) | (Last::Raise, Word::Multiply { .. }) => {
                (Last::Use, self.raised)
            }
            (Last::Use, Word::Raise { times }) => {
                let sum = self
                    .raised
                    .checked_add(times)
                    .filter(|sum| *sum <= MOST_RAISED);
                (Last::Raise, sum.ok_or(ScheduleFault::Sum { place })?)
            }
            _ => return Err(ScheduleFault::Turn { place }),
        };
        Ok(Progress { last, raised })
    }
}

/// Reads the header and the words that it counts; later words are not read.
pub fn inspect(words: &[u32]) -> Result<Heading, ScheduleFault>
    ensures answered { result ≡ inspected words.now }
    ensures meant { Inspects words.now result }
{
    let heading = read_heading(words)?;
    let mut progress = Progress::START;
    // By place: the words may end before the count does.
    for place in 1..=usize::from(heading.count) {
        progress = progress.advance(heading.radix, words, place)?;
    }
    Ok(heading)
}

/// As `inspect`, for a run that has so many rows: it needs one for each size below the radix.
pub fn inspect_for_rows(words: &[u32], rows: usize) -> Result<Heading, RunFault>
    ensures { result ≡ inspected_for words.now rows }
{
    let heading = inspect(words)?;
    if rows < usize::from(heading.radix) - 1 {
        return Err(RunFault::Rows);
    }
    Ok(heading)
}
