//! Lists the job file on standard input: the lightest signed-digit form of every constant in it.

#![tactic(auto)]

use jobs::list;
use std::fmt;
use std::io::Read;

/// One byte more than a job file may have, so that a longer file is seen to be too long.
const READ_AT_MOST: u64 = 65537;

/// A count with its noun.
#[derive(Clone, Copy)]
struct Counted {
    count: usize,
    noun: &'static str,
}

impl fmt::Display for Counted {
    fn fmt<W: fmt::Write>(&self, f: &mut fmt::Formatter<W>) -> fmt::Result {
        let Counted { count, noun } = *self;
        let ending = if count == 1 { "" } else { "s" };
        write!(f, "{count} {noun}{ending}")
    }
}

fn main(rt: HostRuntime) -> anyhow::Result<()> {
    let mut file = Vec::new(rt.alloc());
    rt.stdin().take(READ_AT_MOST).read_to_end(&mut file)?;
    let listing = list(rt.alloc(), &file)?;
    let text = listing.text;
    print!(rt; "{text}")?;
    let lines = Counted {
        count: listing.lines,
        noun: "line",
    };
    let forms = Counted {
        count: listing.forms,
        noun: "form",
    };
    let faults = Counted {
        count: listing.faults,
        noun: "fault",
    };
    eprintln!(rt; "{lines}: {forms}, {faults}")?;
    Ok(())
}
