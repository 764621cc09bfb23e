//! Digit sources: digits that are read one by one, the top one first.
//!
//! `source` says what every source means; `bytes`, `grouping` and `either` are the makes; `window` reads any of them to its end.

#![tactic(auto)]

pub mod bytes;
pub mod either;
pub mod grouping;
pub mod source;
pub mod window;
