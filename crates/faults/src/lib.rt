//! What a refusal tells: its layer, its number and its place.
//!
//! Each crate refuses with an enum of its own, since a fault names its layer and a number that is read by layer; one
//! definition in its `specs/` gives every case its `Report`.

#![tactic(auto)]

ghost use Rattle.std.specs.Prelude.{Some};
ghost use Rattle.faults.specs.Texts.{name, report_text};

use std::fmt;

/// The layer that refused.
#[derive(Clone, Copy, PartialEq, Eq, Debug)]
pub enum Layer {
    Digits,
    Group,
    Word,
    Schedule,
    Run,
    Lowering,
}

/// A refusal as the studio's numbers; the place is 0 where a fault tells none.
///
/// Each fault gives it by a public method `report`; a `From` would be a second name for that.
#[derive(Clone, Copy, PartialEq, Eq, Debug)]
pub struct Report {
    pub layer: Layer,
    pub number: u8,
    pub place: usize,
}

impl fmt::Display for Layer {
    ghost output = { λ layer. Some (name layer) };

    fn fmt<W: fmt::Write>(&self, f: &mut fmt::Formatter<W>) -> fmt::Result {
        f.write_str(match self {
            Layer::Digits => "digits",
            Layer::Group => "group",
            Layer::Word => "word",
            Layer::Schedule => "schedule",
            Layer::Run => "run",
            Layer::Lowering => "lowering",
        })
    }
}

impl fmt::Display for Report {
    ghost output = { λ report. Some (report_text report) };

    fn fmt<W: fmt::Write>(&self, f: &mut fmt::Formatter<W>) -> fmt::Result {
        let Report {
            layer,
            number,
            place,
        } = *self;
        write!(f, "{layer} {number} at {place}")
    }
}
