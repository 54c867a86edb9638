// The main promise, and two small jobs with their pages, each the contract of a function that only carries it.
ghost use Rattle.tokens.specs.Stage.{whole};
ghost use Rattle.session.specs.Examples.{EmptyPagePrints, SquarePrints};
ghost use Rattle.session.specs.Promise.{Right};
ghost use Rattle.session.specs.Regions.{the_printer};

// Every text is refused by the first number that applies, at its place, or opened; and then every list of questions, in
// any order and of any heights, gets the answers of the written machine, which runs the job once.
pub fn printer_is_right() -> u8
    ensures { Right whole the_printer }
{
    0
}

// `shows` prints a page of white dots.
pub fn empty_page_prints() -> u8
    ensures { EmptyPagePrints }
{
    0
}

// A square of three by two dots at 1, 1 is painted there, and nowhere else.
pub fn square_prints() -> u8
    ensures { SquarePrints }
{
    0
}
