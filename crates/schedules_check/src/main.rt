//! Reads and writes a table of schedules, and prints what comes of each.

#![tactic(auto)]

mod areas;
mod scripts;
mod show;

use std::io;

fn main(rt: HostRuntime) -> io::Result<()> {
    let out = rt.stdout();
    areas::all(&out)?;
    scripts::all(&out)?;
    scripts::longest(&out)
}
