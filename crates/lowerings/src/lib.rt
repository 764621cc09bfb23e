//! A constant under edit, with the lightest form of it at hand.

#![tactic(auto)]

mod carrying;
mod constant;
mod fault;
mod making;
mod record;
