//! What reading refuses, layer by layer: a word's fault travels whole inside the schedule's, and that inside the run's.
//!
//! `report` is the public name of what a fault tells; a `From` would be a second one.

ghost use Rattle.std.specs.Prelude.{◌≡◌};
ghost use Rattle.schedules.specs.Faults.{told_word, told_schedule, told_run};
ghost use Rattle.schedules.specs.declared.fault.ScheduleFault.TheVariants as schedule_fault;
ghost use Rattle.schedules.specs.declared.fault.RunFault.TheVariants as run_fault;

use crate::word::Misread;
use faults::{Layer, Report};

/// Why the word at a place cannot be read.
#[derive(Clone, Copy, PartialEq, Eq, Debug)]
pub struct WordFault {
    pub why: Misread,
    pub place: usize,
}

/// Why words are no lawful schedule.
#[derive(Clone, Copy, PartialEq, Eq, Debug)]
pub enum ScheduleFault {
    /// A word cannot be read.
    Word(WordFault),
    /// The area ends before this word.
    Missing { place: usize },
    /// A word of this kind cannot stand here.
    Turn { place: usize },
    /// With this raise the raises sum to more than 120.
    Sum { place: usize },
}

/// Why a schedule cannot be run.
#[derive(Clone, Copy, PartialEq, Eq, Debug)]
pub enum RunFault {
    /// The words are no lawful schedule.
    Schedule(ScheduleFault),
    /// There are fewer rows than sizes below the radix.
    Rows,
}

impl From<WordFault> for ScheduleFault {
    ghost from_gives = { λ f r. r ≡ schedule_fault.Word f };

    fn from(fault: WordFault) -> ScheduleFault {
        ScheduleFault::Word(fault)
    }
}

impl From<ScheduleFault> for RunFault {
    ghost from_gives = { λ f r. r ≡ run_fault.Schedule f };

    fn from(fault: ScheduleFault) -> RunFault {
        RunFault::Schedule(fault)
    }
}

impl WordFault {
    /// The fault as layer, number and place.
    pub fn report(&self) -> Report
        ensures { result ≡ told_word self.now }
    {
        let number = match self.why {
            Misread::Radix => 1,
            Misread::StrayBit | Misread::Unclosed | Misread::Size | Misread::Times => 7,
        };
        Report {
            layer: Layer::Word,
            number,
            place: self.place,
        }
    }
}

impl ScheduleFault {
    /// The fault as layer, number and place; a word's fault keeps its own.
    pub fn report(&self) -> Report
        ensures { result ≡ told_schedule self.now }
    {
        match *self {
            ScheduleFault::Word(fault) => fault.report(),
            ScheduleFault::Missing { place }
            | ScheduleFault::Turn { place }
            | ScheduleFault::Sum { place } => Report {
                layer: Layer::Schedule,
                number: 7,
                place,
            },
        }
    }
}

impl RunFault {
    /// The fault as layer, number and place; a schedule's fault keeps its own.
    pub fn report(&self) -> Report
        ensures { result ≡ told_run self.now }
    {
        match *self {
            RunFault::Schedule(fault) => fault.report(),
            RunFault::Rows => Report {
                layer: Layer::Run,
                number: 22,
                place: 0,
            },
        }
    }
}
