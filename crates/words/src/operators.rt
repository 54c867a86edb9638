ghost use Rattle.std.specs.Prelude.{◌≡◌};
ghost use Rattle.lexer.specs.Reading.{as_operator};
ghost use Rattle.tokens.specs.Stored.{operator_of};
ghost use Rattle.words.specs.Spelling.{found_as, spelled};

use tokens::Operator;

// The operators, in the order of their numbers.
const OPERATORS: [Operator; 21] = [
    Operator::Adds,
    Operator::Takes,
    Operator::Multiplies,
    Operator::Divides,
    Operator::IsLess,
    Operator::Copies,
    Operator::Drops,
    Operator::Swaps,
    Operator::Defines,
    Operator::Repeats,
    Operator::When,
    Operator::Moves,
    Operator::Lines,
    Operator::Fills,
    Operator::ClipsBy,
    Operator::Greys,
    Operator::Shifts,
    Operator::Scales,
    Operator::Keeps,
    Operator::Back,
    Operator::Shows,
];

// How an operator is spelled.
fn spelling(op: Operator) -> &'static [u8]
    ensures { result.now ≡ spelled (operator_of op) }
{
    match op {
        Operator::Adds => b"adds",
        Operator::Takes => b"takes",
        Operator::Multiplies => b"multiplies",
        Operator::Divides => b"divides",
        Operator::IsLess => b"is-less",
        Operator::Copies => b"copies",
        Operator::Drops => b"drops",
        Operator::Swaps => b"swaps",
        Operator::Defines => b"defines",
        Operator::Repeats => b"repeats",
        Operator::When => b"when",
        Operator::Moves => b"moves",
        Operator::Lines => b"lines",
        Operator::Fills => b"fills",
        Operator::ClipsBy => b"clips-by",
        Operator::Greys => b"greys",
        Operator::Shifts => b"shifts",
        Operator::Scales => b"scales",
        Operator::Keeps => b"keeps",
        Operator::Back => b"back",
        Operator::Shows => b"shows",
    }
}

// The operator that a word is, if it is one.
pub fn operator_named(letters: &[u8]) -> Option<Operator>
    ensures { found_as result ≡ as_operator letters.now }
{
    OPERATORS
        .iter()
        .find(|op| letters == spelling(**op))
        .copied()
}
