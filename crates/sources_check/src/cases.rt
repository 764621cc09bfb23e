//! The cases: bytes that are read plain and grouped, each make alone and as one of two.

use crate::ones::Ones;
use crate::show;
use crate::value::last_grouped;
use sources::bytes::ByteSource;
use sources::either::Either;
use sources::grouping::Grouping;
use sources::window::last_digits;
use std::io;
use std::io::Print;

/// A row of a table, so that a case takes one line: its bytes, radix and width.
type Row = (&'static [u8], u8, u8);

/// A stray byte nowhere, first, in the middle and last; the byte that equals the radix is the least stray one.
const STRAY: [Row; 6] = [
    (b"", 10, 2),
    (b"\x02\x01\x00\x01", 2, 2),
    (b"\x01\x00\x01\x02\x01\x01", 2, 2),
    (b"\x01\x01\x00\x01\xff", 2, 2),
    (b"\x00\x00\x05\x09\x0a", 10, 2),
    (b"\x0f\x0e\x10\x03", 16, 1),
];

/// A radix outside 2 to 16.
const UNFIT: [Row; 4] = [
    (b"\x00\x00", 0, 2),
    (b"\x00\x00", 1, 3),
    (b"\x01\x10", 17, 4),
    (b"\x01\x01", 255, 2),
];

/// Every radix and width that are grouped, with counts that are multiples of the width and counts that are not.
const GROUPED: [Row; 13] = [
    (b"\x01\x00\x01\x01", 2, 2),
    (b"\x01\x00\x01\x01\x01", 2, 2),
    (b"\x01\x00\x01\x01\x01\x00", 2, 3),
    (b"\x01\x01\x00\x01\x01", 2, 3),
    (b"\x01\x01\x00\x01", 2, 3),
    (b"\x01\x00\x01\x01\x01\x01\x01\x00", 2, 4),
    (b"\x01\x01\x01\x00\x00\x01\x00", 2, 4),
    (b"\x01\x01\x00\x00\x01\x00", 2, 4),
    (b"\x01\x00\x00\x01\x00", 2, 4),
    (b"\x02\x01\x00\x02", 3, 2),
    (b"\x02\x01\x00\x02\x02", 3, 2),
    (b"\x03\x01\x00\x02", 4, 2),
    (b"\x01\x03\x03\x02\x00\x00\x01", 4, 2),
];

/// Some that are not grouped.
const SINGLE: [Row; 8] = [
    (b"\x01\x00\x01", 2, 0),
    (b"\x01\x00\x01", 2, 1),
    (b"\x01\x00\x01\x01\x01\x01", 2, 5),
    (b"\x02\x00\x01\x01", 3, 3),
    (b"\x03\x02\x01", 4, 3),
    (b"\x04\x00\x01", 5, 2),
    (b"\x0f\x0e", 16, 2),
    (b"\x01\x00", 2, 255),
];

/// Bytes that are read at a radix, and grouped by a width.
#[derive(Clone, Copy)]
struct Case<'a> {
    bytes: &'a [u8],
    radix: u8,
    width: u8,
}

impl From<Row> for Case<'static> {
    fn from((bytes, radix, width): Row) -> Case<'static> {
        Case {
            bytes,
            radix,
            width,
        }
    }
}

/// A source of bytes, plain or grouped.
type PlainOrGrouped<'a> = Either<ByteSource<'a>, Grouping<ByteSource<'a>>>;

impl<'a> Case<'a> {
    fn plain(&self) -> ByteSource<'a> {
        ByteSource::new(self.bytes, self.radix)
    }

    fn grouped(&self) -> Grouping<ByteSource<'a>> {
        Grouping::new(self.plain(), self.width)
    }

    fn one(&self) -> PlainOrGrouped<'a> {
        Either::One(self.plain())
    }

    fn other(&self) -> PlainOrGrouped<'a> {
        Either::Other(self.grouped())
    }
}

/// Each case of the tables.
pub fn tables(out: &impl Print) -> io::Result<()> {
    all(out, &STRAY)?;
    all(out, &UNFIT)?;
    all(out, &GROUPED)?;
    all(out, &SINGLE)
}

fn all(out: &impl Print, rows: &[Row]) -> io::Result<()> {
    for row in rows {
        let case = Case::from(*row);
        let Case {
            bytes,
            radix,
            width,
        } = case;
        println!(out; "{bytes:?} at radix {radix}, by {width}")?;
        show::digits(out, "bytes", || case.plain())?;
        show::digits(out, "groups", || case.grouped())?;
        show::digits(out, "one of two", || case.one())?;
        show::digits(out, "the other", || case.other())?;
    }
    Ok(())
}

/// Groupings of groupings: two that group twice, and two in which one of the widths counts as 1.
pub fn nested(out: &impl Print) -> io::Result<()> {
    let rows: [(Row, u8); 4] = [
        ((b"\x01\x00\x01\x01\x01\x01\x00", 2, 2), 2),
        ((b"\x01\x01\x00\x01\x01\x01\x00\x01", 2, 2), 2),
        ((b"\x01\x00\x01\x01\x01", 2, 2), 3),
        ((b"\x01\x00\x01\x01\x01", 2, 1), 4),
    ];
    for (row, again) in rows {
        let case = Case::from(row);
        let Case {
            bytes,
            radix,
            width,
        } = case;
        println!(out; "{bytes:?} at radix {radix}, by {width} and by {again}")?;
        show::digits(
            out,
            "groups of groups",
            || Grouping::new(case.grouped(), again),
        )?;
    }
    Ok(())
}

/// Windows of every length from none to more than there are digits.
pub fn windows(out: &impl Print) -> io::Result<()> {
    println!(out; "windows")?;
    for n in 0..7 {
        let mut window = [9u8; 6];
        let lost = last_grouped(b"\x00\x01\x00\x00\x01\x01\x00\x01", 2, 2, &mut window[..n]);
        println!(out; "  last {n}: {window:?}, lost {lost}")?;
    }
    Ok(())
}

/// A make that the library does not know, alone, grouped and as one of two.
pub fn foreign(out: &impl Print) -> io::Result<()> {
    println!(out; "ones")?;
    show::digits(out, "5", || Ones { count: 5 })?;
    show::digits(out, "5 by 3", || Grouping::new(Ones { count: 5 }, 3))?;
    show::counts(out, "5000", || Ones { count: 5000 })
}

/// One list of sources of several makes, each read to its end.
pub fn listed(out: &impl Print) -> io::Result<()> {
    println!(out; "a list")?;
    let case = Case {
        bytes: b"\x01\x00\x01\x01\x01",
        radix: 2,
        width: 2,
    };
    let mut list = [
        Either::One(case.plain()),
        Either::Other(Either::One(case.grouped())),
        Either::Other(Either::Other(Ones { count: 2 })),
    ];
    for source in list.iter_mut() {
        let mut window = [9u8; 4];
        let lost = last_digits(source, &mut window);
        println!(out; "  last {window:?}, lost {lost}")?;
    }
    Ok(())
}

/// As many digits as a source may have, one fewer and one more.
pub fn long(out: &impl Print) -> io::Result<()> {
    let ones = [1u8; 4097];
    for n in 4095..=4097 {
        let case = Case {
            bytes: &ones[..n],
            radix: 2,
            width: 3,
        };
        println!(out; "{n} bytes")?;
        show::counts(out, "bytes", || case.plain())?;
        show::counts(out, "groups of 3", || case.grouped())?;
    }
    Ok(())
}
