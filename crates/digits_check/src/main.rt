//! Runs the calls over digits on tables of cases, and prints what they answer.

#![tactic(auto)]

ghost use Rattle.std.specs.Prelude.{◌<◌, ◌≤◌, length};

mod cases;
mod showing;

use cases::{BAD_FORMS, PLAIN, QUINARY, TERNARY, numbered_form};
use digits::{Fault, judge, mirror, recode, recode_signed, settle, weigh};
use forms::{Letter, Measure, Radix};
use showing::{Answer, Digits, Form, Judged, Settled};
use std::io;

/// The longest form that is read, and one place more.
const LONG: usize = 122;

/// The settled digits of a form, with one place of the area behind them, or the fault and what the area has.
fn settled<'a>(radix: u8, form: &[i8], area: &'a mut [u8]) -> Settled<'a> {
    let sign = Answer(settle(radix, form, area).map(|negative| if negative { "-" } else { "+" }));
    let shown = if form.len() < 6 { form.len() + 1 } else { 2 };
    let plain = Digits(&area[..shown.min(area.len())]);
    Settled { sign, plain }
}

/// Judges and settles one form.
fn show_form(rt: &impl Print, radix: u8, form: &[i8]) -> io::Result<()> {
    let shown = Form(form);
    let verdict = Answer(judge(radix, form).map(Judged));
    let mut area = [9; LONG];
    let settled = settled(radix, form, &mut area);
    println!(rt; "{radix} {shown}: {verdict} | {settled}")
}

/// Every form of so many places with these digits.
fn show_forms(rt: &impl Print, radix: u8, places: usize, digits: &[i8]) -> io::Result<()>
    requires few { places ≤ 5 }
    requires some { 0 < length digits.now }
{
    for number in 0..digits.len().saturating_pow(places as u32) {
        show_form(rt, radix, &numbered_form(number, digits)[..places])?;
    }
    Ok(())
}

/// Every form of up to five places at radices 2 and 3.
fn small_forms(rt: &impl Print) -> io::Result<()> {
    for places in 0..6 {
        show_forms(rt, 2, places, &TERNARY)?;
        show_forms(rt, 3, places, &QUINARY)?;
    }
    Ok(())
}

/// Forms that are refused, and long ones that are not.
fn refusals(rt: &impl Print) -> io::Result<()> {
    for (radix, form) in BAD_FORMS {
        show_form(rt, radix, &form)?;
    }
    let mut long = [0; LONG];
    for radix in [2, 16] {
        show_form(rt, radix, &long[..121])?;
        show_form(rt, radix, &long)?;
    }
    long[0] = 15;
    long[120] = -15;
    show_form(rt, 16, &long[..121])?;
    show_form(rt, 15, &long[..121])?;
    let mut area = [7; 2];
    let settled = settled(10, &[1, -2, 3], &mut area);
    println!(rt; "short area | {settled}")
}

/// What a call made of its area, or why it refused, with the first seven places of the area.
fn show_made(
    rt: &impl Print,
    call: &str,
    radix: u8,
    made: Result<(), Fault>,
    area: &[i8],
) -> io::Result<()> {
    let made = Answer(made.map(|()| "made"));
    let form = Digits(&area[..area.len().min(7)]);
    println!(rt; "{call} {radix}: {made} {form}")
}

/// The form of each letter in an area that is all 99 before.
fn show_recoded(rt: &impl Print, radix: u8, plain: &[u8], area: &mut [i8]) -> io::Result<()> {
    for letter in [Letter::G, Letter::B, Letter::L] {
        area.fill(99);
        let made = recode(letter, radix, plain, area);
        show_made(rt, "recode", radix, made, area)?;
    }
    Ok(())
}

/// As `show_recoded`, for the number above 0 and the one below.
fn show_signed(rt: &impl Print, radix: u8, plain: &[u8], area: &mut [i8]) -> io::Result<()> {
    for (call, negative) in [("plus", false), ("minus", true)] {
        for letter in [Letter::G, Letter::B, Letter::L] {
            area.fill(99);
            let made = recode_signed(letter, radix, negative, plain, area);
            show_made(rt, call, radix, made, area)?;
        }
    }
    Ok(())
}

/// The mirror image of a form.
fn show_mirrored(rt: &impl Print, radix: u8, form: [i8; 4]) -> io::Result<()> {
    let mut area = form;
    let made = mirror(radix, &mut area);
    show_made(rt, "mirror", radix, made, &area)
}

/// Both weights of a form.
fn show_weighed(rt: &impl Print, form: &[i8]) -> io::Result<()> {
    let places = form.len();
    let count = Answer(weigh(Measure::Count, form));
    let square = Answer(weigh(Measure::Square, form));
    println!(rt; "weigh [{places} places]: {count}, {square}")
}

/// The recodings, mirror images and weights, accepted and refused.
fn others(rt: &impl Print) -> io::Result<()> {
    for (radix, plain) in PLAIN {
        show_recoded(rt, radix, &plain, &mut [0; 5])?;
    }
    show_recoded(rt, 10, &[1, 8, 1, 9], &mut [0; 6])?;
    show_recoded(rt, 10, &[1, 8, 1, 9], &mut [0; 4])?;
    show_recoded(rt, 10, &[], &mut [0; 1])?;
    show_recoded(rt, 10, &[], &mut [])?;
    show_recoded(rt, 16, &[15; 120], &mut [0; 121])?;
    show_recoded(rt, 16, &[15; 121], &mut [0; 122])?;
    for (radix, form) in BAD_FORMS {
        show_mirrored(rt, radix, form)?;
    }
    show_weighed(rt, &[3, 0, -2, 15])?;
    show_weighed(rt, &[-128, 127])?;
    show_weighed(rt, &[1; 121])?;
    show_weighed(rt, &[1; 122])
}

/// The recodings of a number with a sign, accepted and refused.
fn signed(rt: &impl Print) -> io::Result<()> {
    for (radix, plain) in PLAIN {
        show_signed(rt, radix, &plain, &mut [0; 6])?;
    }
    show_signed(rt, 10, &[1, 8, 1, 9], &mut [0; 4])?;
    show_signed(rt, 10, &[], &mut [0; 1])?;
    show_signed(rt, 10, &[], &mut [])?;
    show_signed(rt, 16, &[15; 120], &mut [0; 121])?;
    show_signed(rt, 16, &[15; 121], &mut [0; 122])
}

/// Which numbers are a radix, and which characters are a letter.
fn names(rt: &impl Print) -> io::Result<()> {
    for value in [0, 1, 2, 10, 16, 17, 255] {
        match Radix::new(value) {
            Some(radix) => println!(rt; "radix {}", radix.get())?,
            None => println!(rt; "{value} is no radix")?,
        }
    }
    for character in ['G', 'B', 'L', 'A', 'g', '1', ' '] {
        match Letter::try_from(character) {
            Ok(letter) => println!(rt; "letter {letter}")?,
            Err(no_letter) => println!(rt; "{character}: {no_letter}")?,
        }
    }
    Ok(())
}

fn main(rt: HostRuntime) -> anyhow::Result<()> {
    small_forms(&rt)?;
    refusals(&rt)?;
    others(&rt)?;
    signed(&rt)?;
    names(&rt)?;
    Ok(())
}
