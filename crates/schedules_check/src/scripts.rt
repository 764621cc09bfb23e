//! Scripts that are written: what each call answers, and what the area holds afterwards.

use self::Call::{Minus, Plus, Raise};
use self::End::{Abandon, Close};
use crate::show;
use schedules::{Open, WriteFault, begin};
use std::io;
use std::io::Print;

/// A call of the writer, as data of a table: a use of either sign, or a raise.
#[derive(Clone, Copy)]
enum Call {
    Plus(u8),
    Minus(u8),
    Raise(u8),
}

impl Call {
    fn make(self, open: &mut Open, area: &mut [u32]) -> Result<(), WriteFault> {
        match self {
            Plus(size) => open.use_digit(area, size, false),
            Minus(size) => open.use_digit(area, size, true),
            Raise(times) => open.raise(area, times),
        }
    }
}

/// How a schedule ends.
#[derive(Clone, Copy)]
enum End {
    Close,
    Abandon,
}

impl End {
    fn make(self, open: Open, area: &mut [u32]) {
        match self {
            Close => open.close(area),
            Abandon => open.abandon(area),
        }
    }
}

struct Script {
    name: &'static str,
    radix: u8,
    /// How many words the area has.
    room: usize,
    calls: &'static [Call],
    end: End,
}

const NINETY_THREE: [Call; 7] = [
    Plus(1),
    Raise(1),
    Plus(2),
    Raise(1),
    Minus(1),
    Raise(1),
    Plus(1),
];

/// Schedules that are written without a refusal, and every refusal, each before those that it comes first of.
const SCRIPTS: [Script; 19] = [
    Script {
        name: "header alone",
        radix: 4,
        room: 8,
        calls: &[],
        end: Close,
    },
    Script {
        name: "93",
        radix: 4,
        room: 8,
        calls: &NINETY_THREE,
        end: Close,
    },
    Script {
        name: "93, abandoned",
        radix: 4,
        room: 8,
        calls: &NINETY_THREE,
        end: Abandon,
    },
    Script {
        name: "ends with a raise",
        radix: 16,
        room: 4,
        calls: &[Minus(15), Raise(120)],
        end: Close,
    },
    Script {
        name: "abandoned at once",
        radix: 4,
        room: 2,
        calls: &[],
        end: Abandon,
    },
    Script {
        name: "radix 1",
        radix: 1,
        room: 8,
        calls: &[Plus(1)],
        end: Close,
    },
    Script {
        name: "radix 17",
        radix: 17,
        room: 8,
        calls: &[],
        end: Close,
    },
    Script {
        name: "radix 0, empty area",
        radix: 0,
        room: 0,
        calls: &[],
        end: Close,
    },
    Script {
        name: "empty area",
        radix: 2,
        room: 0,
        calls: &[],
        end: Close,
    },
    Script {
        name: "raise before any use",
        radix: 4,
        room: 8,
        calls: &[Raise(1), Raise(0), Plus(1)],
        end: Close,
    },
    Script {
        name: "use after a use",
        radix: 4,
        room: 8,
        calls: &[Plus(1), Plus(0), Minus(9), Raise(2)],
        end: Close,
    },
    Script {
        name: "raise after a raise",
        radix: 4,
        room: 8,
        calls: &[Plus(1), Raise(1), Raise(200), Plus(3)],
        end: Close,
    },
    Script {
        name: "sizes",
        radix: 4,
        room: 8,
        calls: &[
            Plus(0),
            Plus(4),
            Minus(255),
            Minus(3),
            Raise(1),
            Plus(0),
            Plus(4),
            Plus(3),
        ],
        end: Close,
    },
    Script {
        name: "raises",
        radix: 2,
        room: 8,
        calls: &[
            Plus(1),
            Raise(0),
            Raise(121),
            Raise(255),
            Raise(120),
            Plus(1),
            Raise(1),
        ],
        end: Close,
    },
    Script {
        name: "sum of 120",
        radix: 2,
        room: 8,
        calls: &[Plus(1), Raise(60), Plus(1), Raise(61), Raise(60)],
        end: Close,
    },
    Script {
        name: "no room for a use",
        radix: 4,
        room: 1,
        calls: &[Plus(4), Plus(1)],
        end: Close,
    },
    Script {
        name: "no room for a raise",
        radix: 4,
        room: 2,
        calls: &[Plus(1), Raise(121), Raise(1)],
        end: Close,
    },
    Script {
        name: "no room for a multiply",
        radix: 4,
        room: 3,
        calls: &[Plus(1), Raise(1), Plus(4), Minus(1)],
        end: Abandon,
    },
    Script {
        name: "full to the end",
        radix: 4,
        room: 3,
        calls: &[Plus(1), Raise(1)],
        end: Close,
    },
];

impl Script {
    /// Writes the schedule, and prints the number of each answer: 0, or that of its refusal.
    fn write(&self, out: &impl Print, area: &mut [u32]) -> io::Result<()> {
        match begin(self.radix, area) {
            Ok(mut open) => {
                let printed = self.call(out, &mut open, area);
                self.end.make(open, area);
                printed
            }
            Err(refused) => print!(out; "{}", refused.report().number),
        }
    }

    fn call(&self, out: &impl Print, open: &mut Open, area: &mut [u32]) -> io::Result<()> {
        print!(out; "0")?;
        for call in self.calls {
            match call.make(open, area) {
                Ok(()) => print!(out; " 0")?,
                Err(refused) => print!(out; " {}", refused.report().number)?,
            }
        }
        Ok(())
    }
}

pub fn all(out: &impl Print) -> io::Result<()> {
    println!(out; "scripts")?;
    for script in &SCRIPTS {
        let mut cells = [0xEEEE_EEEE; 8];
        let room = script.room.min(cells.len());
        let area = &mut cells[..room];
        print!(out; "  {}: ", script.name)?;
        script.write(out, area)?;
        print!(out; "\n   ")?;
        for word in area.iter() {
            print!(out; " {word:08X}")?;
        }
        print!(out; "\n    ")?;
        show::verdict(out, area)?;
    }
    Ok(())
}

/// Asks for uses of 1 and raises of 1 in turn, and counts how many are accepted.
fn count_accepted(mut open: Open, area: &mut [u32]) -> usize {
    let accepted = [Plus(1), Raise(1)]
        .iter()
        .cycle()
        .take(300)
        .filter(|call| call.make(&mut open, area).is_ok())
        .count();
    open.close(area);
    accepted
}

/// The longest schedule that can be written.
pub fn longest(out: &impl Print) -> io::Result<()> {
    let mut cells = [0xEEEE_EEEE; 300];
    let accepted = begin(2, &mut cells).map_or(0, |open| count_accepted(open, &mut cells));
    println!(out; "longest\n  {accepted} calls accepted")?;
    print!(out; "  ")?;
    show::verdict(out, &cells)
}
