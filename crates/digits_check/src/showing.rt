//! What the calls are given and what they answer, as text.

use digits::{Fault, Verdict};
use std::fmt;

/// Digits in parentheses, with commas: a test's own text, which shares nothing with the listing of jobs.
#[derive(Clone, Copy)]
pub struct Digits<'a, T>(pub &'a [T]);

impl<T: fmt::Display> fmt::Display for Digits<'_, T> {
    fn fmt<W: fmt::Write>(&self, f: &mut fmt::Formatter<W>) -> fmt::Result {
        f.write_str("(")?;
        if let Some((top, rest)) = self.0.split_first() {
            write!(f, "{top}")?;
            for digit in rest {
                write!(f, ",{digit}")?;
            }
        }
        f.write_str(")")
    }
}

/// A form; a long one is not written out.
#[derive(Clone, Copy)]
pub struct Form<'a>(pub &'a [i8]);

impl fmt::Display for Form<'_> {
    fn fmt<W: fmt::Write>(&self, f: &mut fmt::Formatter<W>) -> fmt::Result {
        let places = self.0.len();
        if places < 6 {
            let digits = Digits(self.0);
            write!(f, "{digits}")
        } else {
            write!(f, "[{places} places]")
        }
    }
}

/// Which letters a form meets, its weights and the least ones.
#[derive(Clone, Copy)]
pub struct Judged(pub Verdict);

impl fmt::Display for Judged {
    fn fmt<W: fmt::Write>(&self, f: &mut fmt::Formatter<W>) -> fmt::Result {
        let Verdict {
            nonadjacent,
            balanced,
            count,
            square,
            least_count,
            least_square,
        } = self.0;
        let meets_g = if nonadjacent { "G" } else { "-" };
        let meets_b = if balanced { "B" } else { "-" };
        write!(
            f,
            "{meets_g}{meets_b} {count} {square} {least_count} {least_square}"
        )
    }
}

/// What a call gives, or why it refuses.
#[derive(Clone, Copy)]
pub struct Answer<T>(pub Result<T, Fault>);

impl<T: fmt::Display> fmt::Display for Answer<T> {
    fn fmt<W: fmt::Write>(&self, f: &mut fmt::Formatter<W>) -> fmt::Result {
        match &self.0 {
            Ok(given) => write!(f, "{given}"),
            Err(fault) => {
                let report = fault.report();
                let number = report.number;
                let place = report.place;
                write!(f, "refused {number} at {place}")
            }
        }
    }
}

/// The plain digits of a form, behind its sign.
#[derive(Clone, Copy)]
pub struct Settled<'a> {
    pub sign: Answer<&'static str>,
    pub plain: Digits<'a, u8>,
}

impl fmt::Display for Settled<'_> {
    fn fmt<W: fmt::Write>(&self, f: &mut fmt::Formatter<W>) -> fmt::Result {
        let sign = self.sign;
        let plain = self.plain;
        write!(f, "{sign} {plain}")
    }
}
