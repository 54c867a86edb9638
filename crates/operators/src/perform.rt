ghost use Rattle.std.specs.Prelude.{◌≡◌, true};
ghost use Rattle.tokens.specs.Token.{number_of};
ghost use Rattle.tokens.specs.Stored.{operator_of};
ghost use Rattle.machine.specs.Machine.{operate};
ghost use Rattle.machine.specs.Stage.{operate_of};
ghost use Rattle.machine.specs.Abstraction.{Past, state, after};

use crate::arithmetic::{add, compare, divide, multiply, subtract};
use crate::calling::{branch, define, repeat};
use crate::drawing::{line_to, move_to, paint_path, show_page};
use crate::graphics::{change_grey, change_scale, clip, shift};
use crate::operands::{copy, discard, swap};
use machine::event::{Event, Fault};
use machine::stage::Clipping;
use machine::state::Machine;
use path::builder::Path;
use tokens::Operator;

// what an operator of the stage does
fn perform<'s, 'a, S: Clipping>(
    m: &mut Machine<'s, 'a, S>,
    path: &mut Path<'_>,
    op: Operator,
) -> Result<Event, Fault>
    requires { S.can (number_of (operator_of op)) ≡ true }
    ensures { (t : Past) → after result m.new path.new t ≡ operate (state m.old path.old t) (operator_of op) }
{
    match op {
        Operator::Adds => add(m),
        Operator::Takes => subtract(m),
        Operator::Multiplies => multiply(m),
        Operator::Divides => divide(m),
        Operator::IsLess => compare(m),
        Operator::Copies => copy(m),
        Operator::Drops => discard(m),
        Operator::Swaps => swap(m),
        Operator::Defines => define(m),
        Operator::Repeats => repeat(m),
        Operator::When => branch(m),
        Operator::Moves => move_to(m, path),
        Operator::Lines => line_to(m, path),
        Operator::Fills => Ok(paint_path(m, path)),
        Operator::ClipsBy => clip(m, path),
        Operator::Greys => change_grey(m),
        Operator::Shifts => shift(m),
        Operator::Scales => change_scale(m),
        Operator::Keeps => m.keep(),
        Operator::Back => m.restore(),
        Operator::Shows => Ok(show_page(m, path)),
    }
}

// what an operator does, if the stage can do it
pub(crate) fn operate<'s, 'a, S: Clipping>(
    m: &mut Machine<'s, 'a, S>,
    path: &mut Path<'_>,
    op: Operator,
) -> Result<Event, Fault>
    ensures { (t : Past) → after result m.new path.new t ≡ operate_of S.can (state m.old path.old t) (operator_of op) }
{
    if S::does(op) {
        perform(m, path, op)
    } else {
        Ok(Event::Unsupported(op))
    }
}
