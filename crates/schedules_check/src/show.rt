//! Answers as lines of text.

use faults::Report;
use schedules::{Heading, inspect};
use std::io;
use std::io::Print;

/// What reading the area answers.
pub fn verdict(out: &impl Print, area: &[u32]) -> io::Result<()> {
    answer(out, inspect(area).map_err(|refused| refused.report()))
}

/// An answer of a reading: the radix and how many words follow the header, or the report of a fault.
pub fn answer(out: &impl Print, answer: Result<Heading, Report>) -> io::Result<()> {
    match answer {
        Ok(Heading { radix, count }) => println!(out; "radix {radix}, {count} words"),
        Err(refused) => println!(out; "{refused}"),
    }
}
