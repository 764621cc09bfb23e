//! Job files: read line by line, and listed with the lightest forms of their constants.

#![tactic(auto)]

mod listing;
mod memory;
mod printing;
mod reading;

pub use listing::{Listing, list};
pub use memory::OutOfMemory;
