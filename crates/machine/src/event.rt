ghost use Rattle.std.specs.Prelude.{◌≡◌};
ghost use Rattle.machine.specs.Numbers.{fault_number, fault_of};
ghost use Rattle.machine.specs.declared.event.Fault.TheVariants.{LimitExceeded};

use path::builder::PathError;
use stack::Full;
use tokens::Operator;

// why a job ends before its end; the numbers are told to the outside
#[derive(Clone, Copy, Debug, PartialEq, Eq)]
pub enum Fault {
    StackUnderflow = 1,
    WrongKind = 2,
    OutOfRange = 3,
    Undefined = 4,
    NoCurrentPoint = 5,
    NothingKept = 6,
    LimitExceeded = 7,
    StepsUsedUp = 8,
}

impl From<Fault> for u8 {
    ghost from_gives = { λ fault n. n ≡ fault_number fault };

    fn from(fault: Fault) -> u8 {
        fault as u8
    }
}

// what is full takes no more: operands, frames, names, kept states, clips
impl From<Full> for Fault {
    ghost from_gives = { λ e fault. fault ≡ LimitExceeded };

    fn from(_e: Full) -> Fault {
        Fault::LimitExceeded
    }
}

// and so does a path with 1,024 points
impl From<PathError> for Fault {
    ghost from_gives = { λ error fault. fault ≡ fault_of error };

    fn from(error: PathError) -> Fault {
        match error {
            PathError::NoSubpath => Fault::NoCurrentPoint,
            PathError::TooManyPoints => Fault::LimitExceeded,
        }
    }
}

// Painted(n): the first n words of the path are what was painted, and the path is empty now.
// Unsupported: the token of an operator that the stage can't do was taken, and nothing else was done.
#[derive(Clone, Copy, Debug, PartialEq, Eq)]
pub enum Event {
    On,
    Painted(usize),
    Shown,
    Finished,
    Unsupported(Operator),
}
