//! The characters of the letters.

ghost use Rattle.std.specs.Prelude.{◌≡◌, [], ◌∷◌, Some, codes};
ghost use Rattle.std.specs.Result.{result_ok};
ghost use Rattle.forms.specs.Characters.{character, letter_of};

use crate::Letter;
use std::error::Error;
use std::fmt;

/// A character that is none of the letters.
#[derive(Clone, Copy, PartialEq, Eq, Debug)]
pub struct NoLetter;

impl fmt::Display for NoLetter {
    ghost output = { λ _. Some (codes "none of the letters") };

    fn fmt<W: fmt::Write>(&self, f: &mut fmt::Formatter<W>) -> fmt::Result {
        f.write_str("none of the letters")
    }
}

impl Error for NoLetter {}

impl TryFrom<char> for Letter {
    type Error = NoLetter;

    ghost try_from_gives = { λ c answer. result_ok answer ≡ letter_of c };

    fn try_from(character: char) -> Result<Letter, NoLetter> {
        match character {
            'G' => Ok(Letter::G),
            'B' => Ok(Letter::B),
            'L' => Ok(Letter::L),
            _ => Err(NoLetter),
        }
    }
}

impl fmt::Display for Letter {
    ghost output = { λ letter. Some (character letter ∷ []) };

    fn fmt<W: fmt::Write>(&self, f: &mut fmt::Formatter<W>) -> fmt::Result {
        f.write_str(match self {
            Letter::G => "G",
            Letter::B => "B",
            Letter::L => "L",
        })
    }
}
