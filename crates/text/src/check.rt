ghost use Rattle.std.specs.Prelude.{◌≡◌, ◌+◌, ◌<◌, ◌≤◌, [], length, if◌then◌else◌, Ok, Err, MatchOption, nat_lt};
ghost use Rattle.text.specs.declared.refusal.Refusal.TheVariants.{Unreadable, TooLarge};
ghost use Rattle.lexer.specs.Reading.{cannot_read, above_limit, fine, read};
ghost use Rattle.lexer.specs.Lexing.{from};
ghost use Rattle.words.specs.Naming.{words_of};
ghost use Rattle.text.specs.Limits.{Admits, place_in};
ghost use Rattle.text.specs.Refusing.{passed_with, Checked};

use super::refusal::Refusal;
use lexer::{Lexeme, lexeme_at};
use tokens::Stage;
use words::meaning::plain_token;
use words::names::{NAMES, Names};

// How many tokens a text may have, braces counted.
pub const TOKENS: usize = 65536;

// How deep braces may stand in one another.
pub const DEPTH: usize = 32;

// How many bytes are too many for a text.
const BYTES: usize = 16777216;

// Whether a text can be read: the first byte that is wrong, a brace that closes nothing, or one left open.
fn readable(source: &[u8]) -> Result<(), Refusal>
    ensures { result ≡ passed_with Unreadable tt (cannot_read (from source.now 0) (length source.now) 0) }
{
    let mut at = 0;
    let mut open: usize = 0;
    loop {
        let (lexeme, next) = lexeme_at(source, at);
        match lexeme {
            Lexeme::End => break,
            Lexeme::Wrong { place } => return Err(Refusal::Unreadable { place }),
            Lexeme::Open { .. } => open += 1,
            Lexeme::Close { place } => {
                open = open.checked_sub(1).ok_or(Refusal::Unreadable { place })?;
            }
            Lexeme::Number { .. } | Lexeme::Word { .. } | Lexeme::Quoted { .. } => {}
        }
        at = next;
    }
    if open != 0 {
        return Err(Refusal::Unreadable {
            place: source.len(),
        });
    }
    Ok(())
}

// How far a pass over a text has come: tokens, open braces.
#[derive(Clone, Copy)]
struct Counts {
    tokens: usize,
    depth: usize,
}

// A count with one more, where that is still within its limit.
fn one_more(count: usize, limit: usize) -> Option<usize>
    ensures { MatchOption result (limit ≤ count) (λ n. (count < limit) × (n ≡ count + 1)) }
{
    if count < limit { Some(count + 1) } else { None }
}

// Where a lexeme begins; the end of the text is none.
fn place(lexeme: Lexeme) -> Option<usize>
    ensures { result ≡ place_in lexeme.entry }
{
    match lexeme {
        Lexeme::End => None,
        Lexeme::Open { place }
        | Lexeme::Close { place }
        | Lexeme::Number { place, .. }
        | Lexeme::Word { place, .. }
        | Lexeme::Quoted { place, .. }
        | Lexeme::Wrong { place } => Some(place),
    }
}

// The counts with one lexeme more; none where it is above a limit.
fn admit<'a, S: Stage>(
    lexeme: Lexeme<'a>,
    counts: Counts,
    names: &mut Names<'_, 'a>,
) -> Option<Counts>
    ensures { Admits S.can result lexeme.entry counts names.old names.new }
{
    let tokens = one_more(counts.tokens, TOKENS)?;
    let depth = match lexeme {
        Lexeme::Open { .. } => one_more(counts.depth, DEPTH)?,
        Lexeme::Close { .. } => counts.depth.saturating_sub(1),
        _ => {
            plain_token::<S>(lexeme, names)?;
            counts.depth
        }
    };
    Some(Counts { tokens, depth })
}

// How many tokens a text that can be read has, braces counted, or the first that is above a limit. No name is known yet.
fn count_within_limits<'a, S: Stage>(
    source: &'a [u8],
    names: &mut Names<'_, 'a>,
) -> Result<usize, Refusal>
    requires readable { cannot_read (from source.now 0) (length source.now) 0 ≡ fine }
    requires unnamed { words_of names.old ≡ [] }
    ensures { result ≡ passed_with TooLarge (length (from source.now 0)) (above_limit (from source.now 0) S.can 0 0 []) }
{
    let mut at = 0;
    let mut counts = Counts {
        tokens: 0,
        depth: 0,
    };
    loop {
        let (lexeme, next) = lexeme_at(source, at);
        let Some(place) = place(lexeme) else {
            return Ok(counts.tokens);
        };
        counts = admit::<S>(lexeme, counts, names).ok_or(Refusal::TooLarge { place })?;
        at = next;
    }
}

// The same, with a table of names on the call stack.
fn within_limits<S: Stage>(source: &[u8]) -> Result<usize, Refusal>
    requires { cannot_read (from source.now 0) (length source.now) 0 ≡ fine }
    ensures { result ≡ passed_with TooLarge (length (from source.now 0)) (above_limit (from source.now 0) S.can 0 0 []) }
{
    let mut table = [&source[0..0]; NAMES];
    let mut names = Names::new(&mut table);
    count_within_limits::<S>(source, &mut names)
}

// Whether a text is short enough to be looked at further.
fn short(source: &[u8]) -> Result<(), Refusal>
    ensures { result ≡ (if nat_lt (length source.now) 16777216 then Ok tt else Err (TooLarge 0)) }
{
    if source.len() < BYTES {
        Ok(())
    } else {
        Err(Refusal::TooLarge { place: 0 })
    }
}

// How many tokens a text has, braces counted, or why and where it is refused; no memory is needed for it.
pub fn count_tokens<S: Stage>(source: &[u8]) -> Result<usize, Refusal>
    ensures { Checked result (read S.can source.now) }
{
    readable(source)?;
    short(source)?;
    within_limits::<S>(source)
}
