//! Runs each make of source over a table of cases, and prints what it gives.

#![tactic(auto)]

mod cases;
mod ones;
mod show;
mod value;

use std::io;

fn main(rt: HostRuntime) -> io::Result<()> {
    let out = rt.stdout();
    cases::tables(&out)?;
    cases::nested(&out)?;
    cases::windows(&out)?;
    cases::foreign(&out)?;
    cases::listed(&out)?;
    cases::long(&out)
}
