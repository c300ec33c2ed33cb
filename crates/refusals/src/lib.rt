// A refusal carries its number and its place, and of all checks the lowest number that applies is given, at its smallest place.
#![tactic(auto)]

ghost use Rattle.std.specs.Prelude.{◌≡◌};

use std::error::Error;
use std::fmt;

// A refusal for each number of the rules, with its place.
#[derive(Clone, Copy, Debug, PartialEq, Eq)]
pub enum Refusal {
    Length,
    TableNumber(usize),
    RoomShares(usize),
    RampAgain(usize),
    StateNumber(usize),
    Demand(usize),
    QueueOver(usize),
    Pieces(usize),
    Sample(usize),
    Fit,
    RowValue(usize),
    Record(usize),
    Groups(usize),
}

impl Refusal {
    ghost use Rattle.refusals.specs.Refusals.{number_of, place_of};

    // The number of a refusal, as the rules table it.
    pub fn number(self) -> u32
        ensures { result ≡ number_of self }
    {
        match self {
            Refusal::Length => 1,
            Refusal::TableNumber(_) => 2,
            Refusal::RoomShares(_) => 3,
            Refusal::RampAgain(_) => 4,
            Refusal::StateNumber(_) => 5,
            Refusal::Demand(_) => 6,
            Refusal::QueueOver(_) => 7,
            Refusal::Pieces(_) => 8,
            Refusal::Sample(_) => 9,
            Refusal::Fit => 10,
            Refusal::RowValue(_) => 11,
            Refusal::Record(_) => 12,
            Refusal::Groups(_) => 14,
        }
    }

    // The place of a refusal: a cell, a sample, a value or a record, counted from 1, or 0.
    pub fn place(self) -> usize
        ensures { result ≡ place_of self }
    {
        match self {
            Refusal::Length => 0,
            Refusal::Fit => 0,
            Refusal::TableNumber(place)
            | Refusal::RoomShares(place)
            | Refusal::RampAgain(place)
            | Refusal::StateNumber(place)
            | Refusal::Demand(place)
            | Refusal::QueueOver(place)
            | Refusal::Pieces(place)
            | Refusal::Sample(place)
            | Refusal::RowValue(place)
            | Refusal::Record(place)
            | Refusal::Groups(place) => place,
        }
    }
}

// As the programs print it.
impl fmt::Display for Refusal {
    ghost use Rattle.std.specs.Prelude.{Some, ◌++◌, codes};
    ghost use Rattle.std.specs.Fmt.{decimal};
    ghost use Rattle.refusals.specs.Refusals.{number_of, place_of};

    ghost output = { λ refusal. Some (codes "refused " ++ decimal (number_of refusal) ++ codes " at " ++ decimal (place_of refusal)) };

    fn fmt<W: fmt::Write>(&self, f: &mut fmt::Formatter<W>) -> fmt::Result {
        let number = self.number();
        let place = self.place();
        write!(f, "refused {number} at {place}")
    }
}

impl Error for Refusal {}
