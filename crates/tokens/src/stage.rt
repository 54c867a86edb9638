ghost use Rattle.std.specs.Prelude.{◌≡◌, ℕ, Bool};
ghost use Rattle.tokens.specs.Token.{number_of};
ghost use Rattle.tokens.specs.Stored.{operator_of};
ghost use Rattle.tokens.specs.Stage.{thin, whole};

use crate::operator::Operator;

// Which operators can be done: a reader and a machine are written once, for any stage. A text with an operator of another
// stage is refused.
pub trait Stage {
    ghost can: { ℕ → Bool };

    fn does(op: Operator) -> bool
        ensures { result ≡ can (number_of (operator_of op)) };
}

// The first stage: paths of points, filled with a grey, and pages.
pub struct Thin;

// Every operator.
pub struct Whole;

impl Stage for Thin {
    ghost can = { thin };

    fn does(op: Operator) -> bool {
        matches!(
            op,
            Operator::Moves | Operator::Lines | Operator::Fills | Operator::Greys | Operator::Shows
        )
    }
}

impl Stage for Whole {
    ghost can = { whole };

    fn does(_op: Operator) -> bool {
        true
    }
}
