// Why something is refused: document 01, "Refusal numbers"; document 02, L2 and L4. Who refuses names the rule that is broken; its number is what hosts are told.
ghost use Rattle.std.specs.Prelude.{◌≡◌};
ghost use Rattle.format.specs.Refusals.{number_of};

use std::error::Error;
use std::fmt;

// The rule that is broken.
#[derive(Clone, Copy, Debug, PartialEq, Eq, PartialOrd, Ord)]
pub enum Refusal {
    // What no reading lends: no block is refused so.
    Unlent,
    ShortTable,
    LongBlock,
    ForbiddenByte,
    NoTitle,
    NoEquals,
    LabelOrder,
    Version,
    Missing,
    Shape,
    Range,
    AtomNumber,
    Symbol,
    Clash,
    Full,
    Totals,
    NoEnd,
    BehindEnd,
    Unsound,
    ShortBuffer,
    LongForm,
    LongFile,
    BeyondFile,
    PartGeometry,
    AboveGreatest,
}

impl Refusal {
    // The number by which the refusal is told.
    pub fn number(self) -> u32
        ensures { result ≡ number_of self }
    {
        match self {
            Refusal::Unlent => 0,
            Refusal::ShortTable => 1,
            Refusal::LongBlock => 2,
            Refusal::ForbiddenByte => 3,
            Refusal::NoTitle => 4,
            Refusal::NoEquals => 5,
            Refusal::LabelOrder => 6,
            Refusal::Version => 7,
            Refusal::Missing => 8,
            Refusal::Shape => 9,
            Refusal::Range => 10,
            Refusal::AtomNumber => 11,
            Refusal::Symbol => 12,
            Refusal::Clash => 13,
            Refusal::Full => 14,
            Refusal::Totals => 15,
            Refusal::NoEnd => 16,
            Refusal::BehindEnd => 17,
            Refusal::Unsound => 21,
            Refusal::ShortBuffer => 22,
            Refusal::LongForm => 23,
            Refusal::LongFile => 31,
            Refusal::BeyondFile => 32,
            Refusal::PartGeometry => 41,
            Refusal::AboveGreatest => 42,
        }
    }

    // The refusal of the line that starts at a place.
    pub fn at(self, place: usize) -> Refused
        ensures { result ≡ record { refusal = self; place = place } }
    {
        Refused {
            refusal: self,
            place,
        }
    }
}

impl fmt::Display for Refusal {
    fn fmt<W: fmt::Write>(&self, f: &mut fmt::Formatter<W>) -> fmt::Result {
        let number = self.number();
        write!(f, "refusal {number}")
    }
}

impl Error for Refusal {}

// A block's refusal: the rule that is broken, and the place of the line's first byte.
#[derive(Clone, Copy, Debug, PartialEq, Eq)]
pub struct Refused {
    pub refusal: Refusal,
    pub place: usize,
}

impl fmt::Display for Refused {
    fn fmt<W: fmt::Write>(&self, f: &mut fmt::Formatter<W>) -> fmt::Result {
        let place = self.place;
        let number = self.refusal.number();
        write!(f, "refusal {number} at byte {place}")
    }
}

impl Error for Refused {}
