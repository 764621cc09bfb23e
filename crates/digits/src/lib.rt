//! Code over digits: recode, weigh, mirror, judge and settle.

#![tactic(auto)]

mod balanced;
mod borrow_rule;
mod canonical;
mod checks;
mod digit;
mod from_low_end;
mod from_top;
mod judging;
mod mirroring;
mod nonadjacent;
mod numeral;
mod recoding;
mod refusal;
mod settling;
mod weighing;

pub use judging::{Verdict, judge};
pub use mirroring::mirror;
pub use recoding::{recode, recode_signed};
pub use refusal::Fault;
pub use settling::settle;
pub use weighing::{measure_of, weigh};
