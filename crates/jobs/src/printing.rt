//! The lines of a listing, as text.

ghost use Rattle.std.specs.Prelude.{◌≡◌, Some};
ghost use Rattle.forms.specs.Letters.{cost_of};
ghost use Rattle.forms.specs.Weight.{weight as weight_of};
ghost use Rattle.jobs.specs.Listing.{from_top, form_text, form_line};
ghost use Rattle.jobs.specs.Faults.{fault_text};

use forms::Letter;
use std::fmt;

/// The form from its top nonzero digit.
fn from_top(form: &[i8]) -> &[i8]
    ensures { result.now ≡ from_top form.now }
{
    let top = form.iter().position(|digit| *digit != 0);
    &form[top.unwrap_or(form.len())..]
}

/// A form from its top nonzero digit, in decimal with commas, or 0.
#[derive(Clone, Copy)]
struct FormText<'a>(&'a [i8]);

impl fmt::Display for FormText<'_> {
    ghost output = { λ text. Some (form_text (from_top text.0.now)) };

    fn fmt<W: fmt::Write>(&self, f: &mut fmt::Formatter<W>) -> fmt::Result {
        let Some((top, rest)) = from_top(self.0).split_first() else {
            return f.write_str("0");
        };
        write!(f, "{top}")?;
        for digit in rest {
            write!(f, ",{digit}")?;
        }
        Ok(())
    }
}

/// The line that a form lists: letter, radix, weight and form.
#[derive(Clone, Copy)]
pub struct FormLine<'a> {
    pub letter: Letter,
    pub radix: u8,
    pub weight: u32,
    pub form: &'a [i8],
    ghost weighed: { weight ≡ weight_of (cost_of letter) form.now },
}

impl fmt::Display for FormLine<'_> {
    ghost output = { λ line. Some (form_line line.letter line.radix line.form.now) };

    fn fmt<W: fmt::Write>(&self, f: &mut fmt::Formatter<W>) -> fmt::Result {
        let letter = self.letter;
        let radix = self.radix;
        let weight = self.weight;
        let form = FormText(self.form);
        writeln!(f, "{letter} {radix} {weight} {form}")
    }
}

/// The line that a fault lists: of a file that is too long, or of a line that is not lawful.
#[derive(Clone, Copy)]
pub enum FaultLine {
    TooLong,
    Unlawful { line: usize, column: usize },
}

impl fmt::Display for FaultLine {
    ghost output = { λ fault. Some (fault_text fault) };

    fn fmt<W: fmt::Write>(&self, f: &mut fmt::Formatter<W>) -> fmt::Result {
        let (line, column, number) = match *self {
            FaultLine::TooLong => (0, 0, 2),
            FaultLine::Unlawful { line, column } => (line, column, 8),
        };
        writeln!(f, "fault {line} {column} {number}")
    }
}
