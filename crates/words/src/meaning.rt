ghost use Rattle.lexer.specs.Reading.{Piece};
ghost use Rattle.words.specs.Meaning.{Stands, WordRead, PlainRead};

use super::names::Names;
use super::operators::operator_named;
use lexer::{CAP, Lexeme};
use tokens::{Stage, Token};

// The token that a word is; none where it is above a limit.
fn word_token<'a, S: Stage>(letters: &'a [u8], names: &mut Names<'_, 'a>) -> Option<Token<'a>>
    ensures { WordRead S.can result letters.now names.old names.new }
{
    match operator_named(letters) {
        Some(op) => S::does(op).then_some(Token::Does(op)),
        None => Some(Token::Name(names.enter(letters)?)),
    }
}

// The token that a number or a word is; none where it is above a limit, and of any other lexeme.
pub fn plain_token<'a, S: Stage>(lexeme: Lexeme<'a>, names: &mut Names<'_, 'a>) -> Option<Token<'a>>
    ensures { PlainRead S.can result lexeme.entry names.old names.new }
{
    match lexeme {
        Lexeme::Number { value, .. } => (value < CAP).then_some(Token::Number(value)),
        Lexeme::Word { letters, .. } => word_token::<S>(letters, names),
        Lexeme::Quoted { letters, .. } => Some(Token::Quoted(names.enter(letters)?)),
        Lexeme::End | Lexeme::Open { .. } | Lexeme::Close { .. } | Lexeme::Wrong { .. } => None,
    }
}
