//! Schedules: words that say how a number is made from a form, how they are read, and a writer of them.

#![tactic(auto)]

mod fault;
mod reading;
mod refusal;
mod theorems;
mod token;
mod word;

pub use fault::{RunFault, ScheduleFault, WordFault};
pub use reading::{Heading, inspect, inspect_for_rows};
pub use refusal::WriteFault;
pub use theorems::schedules_stand;
pub use token::Open;
pub use token::writing::begin;
pub use word::{Misread, Word, read_word};
