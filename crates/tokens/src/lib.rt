// Tokens, and how they stand in lent words.
//
//   | 0 n | 1 operator | 2 name | 3 quoted name | 4 length | ... length words ... |
//
// Two words a token, its kind and its number; a body's number is how many words follow that are its own, so
// that skipping it is one addition. Any words can be read: numbers are cut to their range, an unknown kind or
// operator ends the row, as a single last word does, and a body has at most the words that are there.
//
// operator: the operators and their numbers. stage: which of them a reader and a machine can do. laws: what is written is read.
#![tactic(auto)]

ghost use Rattle.std.specs.Prelude.{◌≡◌, take, drop};
ghost use Rattle.tokens.specs.Stored.{NextToken};

pub mod laws;
mod operator;
mod stage;

pub use operator::{Operator, UnknownOperator};
pub use stage::{Stage, Thin, Whole};

// a body is the part of the stored words that holds its tokens
#[derive(Clone, Copy, Debug, PartialEq, Eq)]
pub enum Token<'a> {
    Number(u32),
    Does(Operator),
    Name(u8),
    Quoted(u8),
    Body(&'a [u64]),
}

// a body of so many words, or of all that are there, and what comes after it
fn body_of(words: &[u64], n: u64) -> (&[u64], &[u64])
    ensures body { result.0.now ≡ take n words.now }
    ensures rest { result.1.now ≡ drop n words.now }
{
    let len = words.len();
    let end = if n < len as u64 { n as usize } else { len };
    (&words[0..end], &words[end..])
}

// the next token and the words after it; None where the row ends
pub fn next_token(rest: &[u64]) -> Option<(Token<'_>, &[u64])>
    ensures { NextToken result rest.now }
{
    if rest.len() < 2 {
        return None;
    }
    let n = rest[1];
    let after = &rest[2..];
    match rest[0] {
        0 => Some((Token::Number((n % 2147483648) as u32), after)),
        1 => {
            let Ok(op) = Operator::try_from(n) else {
                return None;
            };
            Some((Token::Does(op), after))
        }
        2 => Some((Token::Name((n % 256) as u8), after)),
        3 => Some((Token::Quoted((n % 256) as u8), after)),
        4 => {
            let (body, next) = body_of(after, n);
            Some((Token::Body(body), next))
        }
        _ => None,
    }
}
