ghost use Rattle.std.specs.Prelude.{◌≡◌, Some};
ghost use Rattle.tokens.specs.Printing.{unknown_bytes};
ghost use Rattle.tokens.specs.Token.{number_of};
ghost use Rattle.tokens.specs.Stored.{operator_of, KnownBy};

use std::fmt;

// The operators, by their numbers.
#[derive(Clone, Copy, Debug, PartialEq, Eq)]
pub enum Operator {
    Adds = 0,
    Takes = 1,
    Multiplies = 2,
    Divides = 3,
    IsLess = 4,
    Copies = 5,
    Drops = 6,
    Swaps = 7,
    Defines = 8,
    Repeats = 9,
    When = 10,
    Moves = 11,
    Lines = 12,
    Fills = 13,
    ClipsBy = 14,
    Greys = 15,
    Shifts = 16,
    Scales = 17,
    Keeps = 18,
    Back = 19,
    Shows = 20,
}

// A number that no operator has.
#[derive(Clone, Copy, Debug, PartialEq, Eq)]
pub struct UnknownOperator(pub u64);

impl fmt::Display for UnknownOperator {
    ghost output = { λ e. Some (unknown_bytes e) };

    fn fmt<W: fmt::Write>(&self, f: &mut fmt::Formatter<W>) -> fmt::Result {
        write!(f, "no operator has number {}", self.0)
    }
}

impl From<Operator> for u8 {
    ghost from_gives = { λ op n. n ≡ number_of (operator_of op) };

    fn from(op: Operator) -> u8 {
        op as u8
    }
}

impl TryFrom<u64> for Operator {
    type Error = UnknownOperator;

    ghost try_from_gives = { KnownBy };

    fn try_from(number: u64) -> Result<Operator, UnknownOperator> {
        let op = match number {
            0 => Operator::Adds,
            1 => Operator::Takes,
            2 => Operator::Multiplies,
            3 => Operator::Divides,
            4 => Operator::IsLess,
            5 => Operator::Copies,
            6 => Operator::Drops,
            7 => Operator::Swaps,
            8 => Operator::Defines,
            9 => Operator::Repeats,
            10 => Operator::When,
            11 => Operator::Moves,
            12 => Operator::Lines,
            13 => Operator::Fills,
            14 => Operator::ClipsBy,
            15 => Operator::Greys,
            16 => Operator::Shifts,
            17 => Operator::Scales,
            18 => Operator::Keeps,
            19 => Operator::Back,
            20 => Operator::Shows,
            _ => return Err(UnknownOperator(number)),
        };
        Ok(op)
    }
}
