//! The writer's calls: an open schedule grows word by word in a lent area.

ghost use Rattle.std.specs.Prelude.{◌≡◌, length, slice_set};
ghost use Rattle.schedules.specs.Checks.{answer};
ghost use Rattle.schedules.specs.Writing.{state, Puts, area_check, use_check, raise_check, use_word, used, raised_by, Begins, Adds, Closes};
ghost use Rattle.schedules.specs.declared.word.Word.TheVariants as words;

use crate::reading::{MOST_RAISED, UNCLOSED};
use crate::refusal::WriteFault;
use crate::token::Open;
use crate::word::{Last, Word};
use forms::Radix;

/// Writes `word` where there is room for it.
fn write_word(area: &mut [u32], at: usize, word: Word) -> Result<(), WriteFault>
    ensures answered { result ≡ answer (area_check at (length area.old)) }
    ensures written { Puts at word area.old area.new result }
{
    // A test and an index: after `get_mut` a proof would know nothing of the area.
    if at >= area.len() {
        return Err(WriteFault::Area);
    }
    area[at] = u32::from(word);
    Ok(())
}

/// Writes the first word of an area, unless it is empty.
fn write_first(area: &mut [u32], word: u32)
    ensures { area.new ≡ slice_set area.old 0 word }
{
    if let Some(first) = area.first_mut() {
        *first = word;
    }
}

/// Begins a schedule: writes its header, marked as open.
pub fn begin(radix: u8, area: &mut [u32]) -> Result<Open, WriteFault>
    ensures { Begins radix area.old area.new result }
{
    let radix = Radix::new(radix).ok_or(WriteFault::Radix)?;
    let header = Word::Header {
        count: UNCLOSED,
        radix: radix.get(),
    };
    write_word(area, 0, header)?;
    Ok(Open {
        radix,
        written: 0,
        raised: 0,
        last: Last::Nothing,
    })
}

impl Open {
    /// Adds a digit: a take if it is the first use, otherwise a multiply.
    ///
    /// Size and sign are two parameters, as callers name them.
    pub fn use_digit(
        &mut self,
        area: &mut [u32],
        size: u8,
        negative: bool,
    ) -> Result<(), WriteFault>
        ensures answered { result ≡ answer (use_check (state self.old) size (length area.old)) }
        ensures written { Adds (use_word self.old.last size negative) (state self.old) (used (state self.old)) (state self.new) area.old area.new result }
    {
        let word = match self.last {
            Last::Nothing => Word::Take { size, negative },
            Last::Use => return Err(WriteFault::Turn),
            Last::Raise => Word::Multiply { size, negative },
        };
        if !(1..self.radix.get()).contains(&size) {
            return Err(WriteFault::Size);
        }
        // As in `raise`, but for the sum: a method for both would be handed word, sum and turn for three lines.
        write_word(area, usize::from(self.written) + 1, word)?;
        self.written += 1;
        self.last = Last::Use;
        Ok(())
    }

    /// Multiplies by the radix so many times.
    pub fn raise(&mut self, area: &mut [u32], times: u8) -> Result<(), WriteFault>
        ensures answered { result ≡ answer (raise_check (state self.old) times (length area.old)) }
        ensures written { Adds (words.Raise times) (state self.old) (raised_by times (state self.old)) (state self.new) area.old area.new result }
    {
        let Last::Use = self.last else {
            return Err(WriteFault::Turn);
        };
        if !(1..=MOST_RAISED - self.raised).contains(&times) {
            return Err(WriteFault::Times);
        }
        write_word(area, usize::from(self.written) + 1, Word::Raise { times })?;
        self.written += 1;
        self.raised += times;
        self.last = Last::Raise;
        Ok(())
    }

    /// Ends the schedule: its header now has the true count.
    pub fn close(self, area: &mut [u32])
        ensures { Closes (state self) area.old area.new }
    {
        let Open {
            radix,
            written,
            raised: _,
            last: _,
        } = self;
        let header = Word::Header {
            count: written,
            radix: radix.get(),
        };
        write_first(area, u32::from(header));
    }

    /// Gives the schedule up: its first word becomes 0, which no reader accepts.
    pub fn abandon(self, area: &mut [u32])
        ensures { area.new ≡ slice_set area.old 0 0 }
    {
        let Open {
            radix: _,
            written: _,
            raised: _,
            last: _,
        } = self;
        write_first(area, 0);
    }
}
