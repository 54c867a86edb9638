ghost use Rattle.std.specs.Prelude.{◌≡◌, ◌+◌, ◌-◌, ◌*◌, ◌≤◌, [], ◌++◌, length, drop, slice_set};
ghost use Rattle.lexer.specs.Reading.{build, read};
ghost use Rattle.lexer.specs.Lexing.{from};
ghost use Rattle.words.specs.Naming.{words_of};
ghost use Rattle.tokens.specs.Stored.{all_stored};
ghost use Rattle.text.specs.Storing.{begun_with, Ready, StoredRow, StoredAs};

use super::check::count_tokens;
use super::refusal::Refusal;
use lexer::{Lexeme, lexeme_at};
use tokens::{Stage, Token};
use words::meaning::plain_token;
use words::names::{NAMES, Names};

// Where storing stands: the next byte of the text and the next word.
#[derive(Clone, Copy)]
struct Progress {
    at: usize,
    used: usize,
}

// The two words that a token begins with.
fn begun(token: Token) -> (u64, u64)
    ensures { result ≡ begun_with token.entry }
{
    match token {
        Token::Number(n) => (0, n as u64),
        Token::Does(op) => (1, u8::from(op) as u64),
        Token::Name(k) => (2, k as u64),
        Token::Quoted(k) => (3, k as u64),
        Token::Body(words) => (4, words.len() as u64),
    }
}

fn put(words: &mut [u64], at: usize, head: (u64, u64))
    requires { at + 2 ≤ length words.old }
    ensures { words.new ≡ slice_set (slice_set words.old at head.0) (at + 1) head.1 }
{
    words[at] = head.0;
    words[at + 1] = head.1;
}

// Stores a row of tokens: up to the end of the text, or past the brace that closes the row.
// At most `depth` braces may be opened in it, which the text's limits hold.
fn store_row<'a, S: Stage>(
    source: &'a [u8],
    names: &mut Names<'_, 'a>,
    words: &mut [u64],
    start: Progress,
    depth: u8,
) -> Progress
    requires deep { depth ≤ 32 }
    requires ready { Ready S.can (length source.now) (32 - depth) start.used (length words.old) (from source.now start.at) (words_of names.old) }
    ensures row { StoredRow S.can (length source.now) (32 - depth) (from source.now start.at) (words_of names.old) start.used words.old (from source.now result.at) (words_of names.new) result.used words.new }
    ensures bound { start.at ≤ result.at }
{
    let mut p = start;
    loop {
        let (lexeme, next) = lexeme_at(source, p.at);
        match lexeme {
            Lexeme::End | Lexeme::Wrong { .. } => return p,
            Lexeme::Close { .. } => {
                p.at = next;
                return p;
            }
            Lexeme::Open { .. } => {
                if depth == 0 {
                    return p;
                }
                let header = p.used;
                p.at = next;
                p.used += 2;
                let after = store_row::<S>(source, names, words, p, depth - 1);
                put(words, header, (4, (after.used - p.used) as u64));
                p = after;
            }
            _ => {
                let Some(token) = plain_token::<S>(lexeme, names) else {
                    return p;
                };
                put(words, p.used, begun(token));
                p.at = next;
                p.used += 2;
            }
        }
    }
}

// Stores the tokens of a text that has passed its checks, and says how many words they took.
fn store_all<S: Stage>(source: &[u8], words: &mut [u64]) -> usize
    requires { Ready S.can (length source.now) 0 0 (length words.old) (from source.now 0) [] }
    ensures value { result ≡ length (all_stored (build (from source.now 0) [] [] [])) }
    ensures after { words.new ≡ all_stored (build (from source.now 0) [] [] []) ++ drop result words.old }
{
    let start = Progress { at: 0, used: 0 };
    let mut table = [&source[0..0]; NAMES];
    let mut names = Names::new(&mut table);
    store_row::<S>(source, &mut names, words, start, 32).used
}

// Stores a text's tokens at the front of the words, two words for each and none for a closing brace,
// and says how many words they took; or why and where the text is refused, with all words as they were.
pub fn store_tokens<S: Stage>(source: &[u8], words: &mut [u64]) -> Result<usize, Refusal>
    ensures { StoredAs result (read S.can source.now) words.old words.new }
{
    let count = count_tokens::<S>(source)?;
    if words.len() / 2 < count {
        return Err(Refusal::TooLittleMemory { place: 0 });
    }
    Ok(store_all::<S>(source, words))
}
