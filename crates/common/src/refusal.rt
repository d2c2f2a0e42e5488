// Why a call is refused, and where: document 01, "Who sent it", and document 02.
ghost use Rattle.std.specs.Prelude.{◌≡◌, Some};
ghost use Rattle.common.specs.Refusals.{number_of, is_placed, refusal_text, refused_text};

use std::error::Error;
use std::fmt;

// What is wrong, by its number.
#[derive(Clone, Copy, Debug, PartialEq, Eq)]
pub enum Refusal {
    // A basin file of fewer than 8 bytes.
    FewBytes = 1,
    // Its N or M.
    Counts = 2,
    // Its length.
    Length = 3,
    // A word of a record.
    Word = 4,
    // A count of lines that isn't N.
    LineCount = 5,
    RainMissing = 6,
    // A finite number below zero.
    BelowZero = 7,
    // Above the limit of rain or pan.
    AboveLimit = 8,
    // A basin handed in.
    BadBasin = 9,
    // An argument of a curve, store or sub-basin call.
    OutOfRange = 10,
    // A question about a sub-basin that isn't there.
    NoSuchSubBasin = 11,
    NotANumber = 12,
    // Of either sign.
    Infinite = 13,
    // No number, infinite, or outside the range of a temperature.
    BadTemperature = 14,
    // A window made for n outside 1..64, or with a record that no making and arrivals leave.
    BadWindow = 15,
}

impl Refusal {
    // Its number.
    pub fn number(self) -> u64
        ensures { result ≡ number_of self }
    {
        self as u64
    }

    // Whether it has a place of its own, which is told with it.
    fn is_placed(self) -> bool
        ensures { result ≡ is_placed self }
    {
        matches!(
            self,
            Refusal::Counts
                | Refusal::Word
                | Refusal::RainMissing
                | Refusal::BelowZero
                | Refusal::AboveLimit
                | Refusal::NotANumber
                | Refusal::Infinite
                | Refusal::BadTemperature
        )
    }
}

impl fmt::Display for Refusal {
    ghost output = { λ why. Some (refusal_text why) };

    fn fmt<W: fmt::Write>(&self, f: &mut fmt::Formatter<W>) -> fmt::Result {
        f.write_str(match self {
            Refusal::FewBytes => "a file of fewer than 8 bytes",
            Refusal::Counts => "N or M outside its range",
            Refusal::Length => "a file whose length does not fit N and M",
            Refusal::Word => "a word outside its range",
            Refusal::LineCount => "a count of lines that does not fit N",
            Refusal::RainMissing => "rain missing",
            Refusal::BelowZero => "below zero",
            Refusal::AboveLimit => "above its limit",
            Refusal::BadBasin => "a basin that is not allowed",
            Refusal::OutOfRange => "an argument outside its range",
            Refusal::NoSuchSubBasin => "no such sub-basin",
            Refusal::NotANumber => "not a number",
            Refusal::Infinite => "infinite",
            Refusal::BadTemperature => "a temperature outside its range",
            Refusal::BadWindow => "a window that is not allowed",
        })
    }
}

impl Error for Refusal {}

// A refusal and its place.
#[derive(Clone, Copy, Debug, PartialEq, Eq)]
pub struct Refused {
    pub why: Refusal,
    pub place: u64,
}

// A refusal without a place of its own has place 0, as document 01 has it.
impl From<Refusal> for Refused {
    ghost from_gives = { λ why r. r ≡ record { why = why; place = 0 } };

    fn from(why: Refusal) -> Refused {
        Refused { why, place: 0 }
    }
}

impl fmt::Display for Refused {
    ghost output = { λ r. Some (refused_text r) };

    fn fmt<W: fmt::Write>(&self, f: &mut fmt::Formatter<W>) -> fmt::Result {
        let Refused { why, place } = *self;
        if why.is_placed() {
            write!(f, "{why}, at place {place}")
        } else {
            write!(f, "{why}")
        }
    }
}

impl Error for Refused {}
