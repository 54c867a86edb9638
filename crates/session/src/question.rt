ghost use Rattle.std.specs.Prelude.{◌≡◌, Some};
ghost use Rattle.session.specs.Views.{reason_number, reason_place, reason_bytes};

use std::fmt;

// How a job ends; or so many rows of a page from a row on, pages and rows counted from 0.
#[derive(Clone, Copy, Debug, PartialEq, Eq)]
pub enum Question {
    End,
    Band { page: u64, row: u64, rows: u64 },
}

// Why a question is not answered.
#[derive(Clone, Copy, Debug, PartialEq, Eq)]
pub enum Reason {
    // a page that was not shown
    NoSuchPage,
    // rows beyond the page, or more than 64
    NoSuchRows,
}

// How many pages a job has shown, and 0 or the fault that it ended by; or how many bytes at the front are the rows.
#[derive(Clone, Copy, Debug, PartialEq, Eq)]
pub enum Reply {
    Ended { pages: u32, ending: u8 },
    Dots(usize),
    Unanswered(Reason),
}

impl Reason {
    pub fn number(self) -> u8
        ensures { result ≡ reason_number self }
    {
        match self {
            Reason::NoSuchPage => 4,
            Reason::NoSuchRows => 5,
        }
    }

    pub fn place(self) -> usize
        ensures { result ≡ reason_place self }
    {
        match self {
            Reason::NoSuchPage => 0,
            Reason::NoSuchRows => 1,
        }
    }
}

impl fmt::Display for Reason {
    ghost output = { λ r. Some (reason_bytes r) };

    fn fmt<W: fmt::Write>(&self, f: &mut fmt::Formatter<W>) -> fmt::Result {
        write!(f, "refused {} at {}", self.number(), self.place())
    }
}
