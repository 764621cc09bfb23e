//! Areas that are read: lawful ones, and every fault at its first, a middle and its last place.

use crate::show;
use schedules::inspect_for_rows;
use std::io;
use std::io::Print;

/// Words that are read, and perhaps another word in place of one of them; where it is so, there are at most eight.
#[derive(Clone, Copy)]
struct Area {
    name: &'static str,
    words: &'static [u32],
    change: Option<Change>,
}

#[derive(Clone, Copy)]
struct Change {
    place: usize,
    word: u32,
}

fn plain(name: &'static str, words: &'static [u32]) -> Area {
    Area {
        name,
        words,
        change: None,
    }
}

/// The schedule of 93 with another word at a place.
fn changed(name: &'static str, place: usize, word: u32) -> Area {
    plain(name, &NINETY_THREE).with(place, word)
}

impl Area {
    /// The same words but for one.
    fn with(self, place: usize, word: u32) -> Area {
        Area {
            change: Some(Change { place, word }),
            ..self
        }
    }

    /// The words as they stand: the table's own, or a copy in `room` with the change.
    fn words<'a>(&self, room: &'a mut [u32; 8]) -> &'a [u32] {
        let Some(Change { place, word }) = self.change else {
            return self.words;
        };
        for (cell, word) in room.iter_mut().zip(self.words) {
            *cell = *word;
        }
        if let Some(cell) = room.get_mut(place) {
            *cell = word;
        }
        &room[..self.words.len().min(room.len())]
    }
}

/// The schedule of 93 at radix 4.
static NINETY_THREE: [u32; 8] = [
    0x0000_0704,
    0x4000_0001,
    0x8000_0001,
    0xC000_0002,
    0x8000_0001,
    0xC000_0101,
    0x8000_0001,
    0xC000_0001,
];

/// Lawful schedules: a header alone, each radix at its ends, both signs, a raise at the end, a sum of 120, and areas longer than counted.
fn lawful() -> [Area; 12] {
    [
        plain("header alone", &[0x0000_0004]),
        plain("93", &NINETY_THREE),
        plain("header alone, radix 2", &[0x0000_0002]),
        plain("header alone, radix 16", &[0x0000_0010]),
        plain("one take", &[0x0000_0104, 0x4000_0003]),
        plain("one negative take", &[0x0000_0110, 0x4000_010F]),
        plain(
            "ends with a raise",
            &[0x0000_0204, 0x4000_0001, 0x8000_0007],
        ),
        plain("one raise of 120", &[0x0000_0202, 0x4000_0001, 0x8000_0078]),
        plain(
            "raises of 60 and 60",
            &[
                0x0000_0402,
                0x4000_0001,
                0x8000_003C,
                0xC000_0101,
                0x8000_003C,
            ],
        ),
        plain(
            "longer area",
            &[
                0x0000_0704,
                0x4000_0001,
                0x8000_0001,
                0xC000_0002,
                0x8000_0001,
                0xC000_0101,
                0x8000_0001,
                0xC000_0001,
                0xFFFF_FFFF,
            ],
        ),
        plain(
            "header alone, longer area",
            &[0x0000_0004, 0x0000_0000, 0xFFFF_FFFF],
        ),
        changed("fewer counted than stand", 0, 0x0000_0304),
    ]
}

/// First words that are no header of an open or closed schedule's radix.
fn headers() -> [Area; 14] {
    [
        plain("abandoned", &[0x0000_0000]),
        plain("radix 1", &[0x0000_0001]),
        plain("radix 17", &[0x0000_0011]),
        changed("radix 255, words follow", 0, 0x0000_07FF),
        plain("stray bit 16", &[0x0001_0004]),
        plain("stray bit 29", &[0x2000_0004]),
        plain("stray bit, radix 1", &[0x0001_0001]),
        changed("open", 0, 0x0000_FF04),
        plain("open, radix 0", &[0x0000_FF00]),
        plain("take first", &[0x4000_0001]),
        plain("raise first", &[0x8000_0001]),
        plain("multiply first", &[0xC000_0001]),
        plain("take with a stray bit first", &[0x4000_0201]),
        plain(
            "radix 1, wrong words follow",
            &[0x0000_0201, 0x0000_0000, 0x0000_0000],
        ),
    ]
}

/// Areas shorter than counted: nothing, then the first, a middle and the last word missing, and an earlier word at fault.
fn missing() -> [Area; 7] {
    [
        plain("empty", &[]),
        plain("first", &NINETY_THREE[..1]),
        plain("middle", &NINETY_THREE[..4]),
        plain("last", &NINETY_THREE[..7]),
        changed("count 254", 0, 0x0000_FE04),
        plain("wrong before missing", &NINETY_THREE[..4]).with(2, 0x8000_0000),
        plain("wrong at the end of a short area", &NINETY_THREE[..4]).with(3, 0x4000_0001),
    ]
}

/// Words with a stray bit or a number out of range, first, in the middle and last.
fn misread() -> [Area; 25] {
    [
        changed("stray bit 9, take", 1, 0x4000_0201),
        changed("stray bit 9, middle raise", 4, 0x8000_0201),
        changed("stray bit 9, last", 7, 0xC000_0201),
        changed("stray bit 29, take", 1, 0x6000_0001),
        changed("stray bit 29, middle raise", 4, 0xA000_0001),
        changed("stray bit 29, last", 7, 0xE000_0001),
        changed("stray bit 8, first raise", 2, 0x8000_0101),
        changed("size 0, take", 1, 0x4000_0000),
        changed("size 0, middle multiply", 3, 0xC000_0000),
        changed("size 0, last, negative", 7, 0xC000_0100),
        changed("size 4, take", 1, 0x4000_0004),
        changed("size 4, middle multiply", 3, 0xC000_0004),
        changed("size 4, last, negative", 7, 0xC000_0104),
        changed("size 255, take", 1, 0x4000_00FF),
        changed("size 255, middle multiply", 3, 0xC000_00FF),
        changed("size 255, last, negative", 7, 0xC000_01FF),
        changed("raise of 0, first", 2, 0x8000_0000),
        changed("raise of 0, middle", 4, 0x8000_0000),
        changed("raise of 0, last", 6, 0x8000_0000),
        changed("raise of 121, first", 2, 0x8000_0079),
        changed("raise of 121, middle", 4, 0x8000_0079),
        changed("raise of 121, last", 6, 0x8000_0079),
        changed("raise of 255, first", 2, 0x8000_00FF),
        changed("raise of 255, middle", 4, 0x8000_00FF),
        changed("raise of 255, last", 6, 0x8000_00FF),
    ]
}

/// Words of a kind that cannot stand there.
fn turns() -> [Area; 15] {
    [
        changed("raise first", 1, 0x8000_0001),
        changed("multiply first", 1, 0xC000_0001),
        changed("header first", 1, 0x0000_0004),
        changed("take after a take", 2, 0x4000_0001),
        changed("multiply after a take", 2, 0xC000_0001),
        changed("header after a take", 2, 0x0000_0000),
        changed("raise after a raise", 3, 0x8000_0001),
        changed("take after a raise", 3, 0x4000_0001),
        changed("open header after a raise", 3, 0x0000_FF04),
        changed("header of radix 1 in the middle", 4, 0x0000_0001),
        changed("multiply after a multiply", 4, 0xC000_0001),
        changed("take in the middle", 5, 0x4000_0001),
        changed("raise last", 7, 0x8000_0001),
        changed("take last", 7, 0x4000_0001),
        changed("header last", 7, 0x0000_0704),
    ]
}

/// Raises past a sum of 120, second, in the middle and last.
fn sums() -> [Area; 6] {
    [
        plain(
            "120 and 1",
            &[
                0x0000_0402,
                0x4000_0001,
                0x8000_0078,
                0xC000_0001,
                0x8000_0001,
            ],
        ),
        plain(
            "60 and 61",
            &[
                0x0000_0402,
                0x4000_0001,
                0x8000_003C,
                0xC000_0001,
                0x8000_003D,
            ],
        ),
        plain(
            "119, 1 and 1",
            &[
                0x0000_0602,
                0x4000_0001,
                0x8000_0077,
                0xC000_0001,
                0x8000_0001,
                0xC000_0001,
                0x8000_0001,
            ],
        ),
        plain(
            "40, 40, 41, and a use after it",
            &[
                0x0000_0702,
                0x4000_0001,
                0x8000_0028,
                0xC000_0001,
                0x8000_0028,
                0xC000_0001,
                0x8000_0029,
                0xC000_0001,
            ],
        ),
        plain(
            "120 and 120",
            &[
                0x0000_0502,
                0x4000_0001,
                0x8000_0078,
                0xC000_0001,
                0x8000_0078,
                0xC000_0001,
            ],
        ),
        plain(
            "wrong word after the sum",
            &[
                0x0000_0502,
                0x4000_0001,
                0x8000_0078,
                0xC000_0001,
                0x8000_0001,
                0x0000_0000,
            ],
        ),
    ]
}

/// Runs with enough rows, with too few, and with a schedule's fault before that.
fn runs() -> [(Area, usize); 9] {
    [
        (plain("enough rows", &NINETY_THREE), 3),
        (plain("more rows", &NINETY_THREE), 15),
        (plain("one row short", &NINETY_THREE), 2),
        (plain("no row", &NINETY_THREE), 0),
        (plain("header alone, short", &[0x0000_0010]), 14),
        (plain("header alone, enough", &[0x0000_0010]), 15),
        (changed("word's fault first", 1, 0x4000_0004), 0),
        (plain("schedule's fault first", &NINETY_THREE[..7]), 0),
        (plain("radix's fault first", &[0x0000_0001]), 0),
    ]
}

fn read(out: &impl Print, title: &str, areas: &[Area]) -> io::Result<()> {
    println!(out; "{title}")?;
    for area in areas {
        print!(out; "  {}: ", area.name)?;
        show::verdict(out, area.words(&mut [0; 8]))?;
    }
    Ok(())
}

fn read_for_rows(out: &impl Print, runs: &[(Area, usize)]) -> io::Result<()> {
    println!(out; "rows")?;
    for (area, rows) in runs {
        print!(out; "  {}: ", area.name)?;
        let answer = inspect_for_rows(area.words(&mut [0; 8]), *rows);
        show::answer(out, answer.map_err(|refused| refused.report()))?;
    }
    Ok(())
}

/// Each area of the tables.
pub fn all(out: &impl Print) -> io::Result<()> {
    read(out, "lawful", &lawful())?;
    read(out, "headers", &headers())?;
    read(out, "missing", &missing())?;
    read(out, "misread", &misread())?;
    read(out, "turns", &turns())?;
    read(out, "sums", &sums())?;
    read_for_rows(out, &runs())
}
