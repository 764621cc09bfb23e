//! The listing of a job file.

ghost use Rattle.std.specs.Prelude.{◌≡◌, ◌-◌, ◌<◌, ◌≤◌, [], ◌++◌, length, drop, IfOk, string_bytes, OnOk};
ghost use Rattle.jobs.specs.Entries.{Makes, Ready, shape_form, plain_digits, listed, Adds, AllListed};
ghost use Rattle.jobs.specs.Listing.{ListsFile};

use crate::memory::OutOfMemory;
use crate::printing::{FaultLine, FormLine};
use crate::reading::{MOST_DIGITS, Shape, Unlawful, digit_of, read_line};
use digits::{measure_of, recode_signed, weigh};
use std::alloc::{AllocError, Global};

/// The most bytes that a job file has.
const MOST_BYTES: usize = 65536;

/// What no radix has for a digit.
const NO_DIGIT: u8 = 16;

/// A listing, and how many lines were read, lawful and not.
#[derive(Drop)]
pub struct Listing {
    pub text: String,
    pub lines: usize,
    pub forms: usize,
    pub faults: usize,
}

/// The digits of a lawful line of this shape, into the front of `plain`.
fn read_digits(line: &[u8], shape: &Shape, plain: &mut [u8])
    requires line { Ready shape.now line.now }
    requires room { shape.now.count ≤ length plain.old }
    ensures { plain.new ≡ plain_digits shape.now line.now ++ drop shape.now.count plain.old }
{
    let end = line.len() - 1;
    let spelled = &line[end - shape.count..end];
    // By index, as of what an adapter of `iter_mut` writes a proof knows nothing.
    for (i, byte) in spelled.iter().enumerate() {
        plain[i] = digit_of(*byte).unwrap_or(NO_DIGIT);
    }
}

/// Makes the form of `plain`, with the sign of `shape`, in `form`. Nothing is refused: the line was lawful.
fn make_form(plain: &[u8], shape: &Shape, form: &mut [i8])
    requires { Makes shape.now plain.now form.old }
    ensures { form.new ≡ shape_form shape.now plain.now }
{
    let radix = shape.radix.get();
    recode_signed(shape.letter, radix, shape.negative, plain, form).unwrap();
}

/// Lists the form of `plain`, made in `form`.
fn list_form(
    text: &mut String,
    plain: &[u8],
    shape: &Shape,
    form: &mut [i8],
) -> Result<(), AllocError>
    requires fits { Makes shape.now plain.now form.old }
    ensures { OnOk result (string_bytes text.new ≡ string_bytes text.old ++ listed shape.now plain.now) }
{
    make_form(plain, shape, form);
    let letter = shape.letter;
    let radix = shape.radix.get();
    let weight = weigh(measure_of(letter), form).unwrap();
    let line = FormLine {
        letter,
        radix,
        weight,
        form,
    };
    write!(text, "{line}")
}

/// Lists a lawful line of this shape.
///
/// Two arrays of the most digits: a listing allocates for its text alone.
fn list_job(text: &mut String, line: &[u8], shape: &Shape) -> Result<(), AllocError>
    requires { Ready shape.now line.now }
    ensures { OnOk result (string_bytes text.new ≡ string_bytes text.old ++ listed shape.now (plain_digits shape.now line.now)) }
{
    let count = shape.count;
    let mut plain = [0; MOST_DIGITS];
    read_digits(line, shape, &mut plain);
    let mut form = [0; MOST_DIGITS + 1];
    list_form(text, &plain[..count], shape, &mut form[..count + 1])
}

impl Listing {
    /// Lists one line more.
    fn add_line(&mut self, line: &[u8]) -> Result<(), AllocError>
        requires lines { self.old.lines < 65536 }
        requires forms { self.old.forms < 65536 }
        requires faults { self.old.faults < 65536 }
        ensures { OnOk result (Adds line.now self.old self.new) }
    {
        self.lines += 1;
        match read_line(line) {
            Ok(shape) => {
                self.forms += 1;
                list_job(&mut self.text, line, &shape)
            }
            Err(Unlawful { column }) => {
                self.faults += 1;
                let fault = FaultLine::Unlawful {
                    line: self.lines,
                    column,
                };
                write!(self.text, "{fault}")
            }
        }
    }
}

/// Lists every line.
fn list_lines(heap: Global, file: &[u8]) -> Result<Listing, AllocError>
    requires { length file.now ≤ 65536 }
    ensures { IfOk result (λ l. AllListed file.now [] (string_bytes l.text) l.lines l.forms × (l.faults ≡ l.lines - l.forms)) }
{
    let mut listing = Listing {
        text: String::new(heap),
        lines: 0,
        forms: 0,
        faults: 0,
    };
    for line in file.split_inclusive(|byte| *byte == b'\n') {
        listing.add_line(line)?;
    }
    Ok(listing)
}

/// Lists a job file: each lawful line by the form that its letter gives its number, each other by its fault.
pub fn list(heap: Global, file: &[u8]) -> Result<Listing, OutOfMemory>
    ensures { IfOk result (λ l. ListsFile file.now (string_bytes l.text) l.lines l.forms l.faults) }
{
    if file.len() > MOST_BYTES {
        let fault = FaultLine::TooLong;
        return Ok(Listing {
            text: format!(in heap; "{fault}")?,
            lines: 0,
            forms: 0,
            faults: 1,
        });
    }
    Ok(list_lines(heap, file)?)
}
