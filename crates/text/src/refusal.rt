ghost use Rattle.std.specs.Prelude.{◌≡◌, Some};
ghost use Rattle.text.specs.Refusing.{refusal_number, refusal_place, refusal_bytes};

use std::fmt;

// Why a job is turned away, with the place that is told.
#[derive(Clone, Copy, Debug, PartialEq, Eq)]
pub enum Refusal {
    // a byte that cannot stand there, a word too long, a brace that closes nothing or is left open
    Unreadable { place: usize },
    // a text, a token or a size above its limit
    TooLarge { place: usize },
    // lent memory smaller than is asked for
    TooLittleMemory { place: usize },
}

impl Refusal {
    pub fn number(self) -> u8
        ensures { result ≡ refusal_number self }
    {
        match self {
            Refusal::Unreadable { .. } => 1,
            Refusal::TooLarge { .. } => 2,
            Refusal::TooLittleMemory { .. } => 3,
        }
    }

    pub fn place(self) -> usize
        ensures { result ≡ refusal_place self }
    {
        match self {
            Refusal::Unreadable { place } => place,
            Refusal::TooLarge { place } => place,
            Refusal::TooLittleMemory { place } => place,
        }
    }
}

impl fmt::Display for Refusal {
    ghost output = { λ r. Some (refusal_bytes r) };

    fn fmt<W: fmt::Write>(&self, f: &mut fmt::Formatter<W>) -> fmt::Result {
        write!(f, "refused {} at {}", self.number(), self.place())
    }
}
