//! Groups of plain records, the powers of their elements, and runners that work in any group.

#![tactic(auto)]

pub mod fault;
pub mod group;
pub mod lanes;
pub mod powers;
pub mod runner;
#[cfg(test)]
mod tests;
pub mod words;
