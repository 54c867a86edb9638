ghost use Rattle.std.specs.Prelude.{◌≡◌, ◌+◌, ◌≤◌, min, ◌++◌, length, take, drop, replicate};
ghost use Rattle.tokens.specs.Stage.{whole};
ghost use Rattle.tokens.specs.Stored.{decode};
ghost use Rattle.lexer.specs.Reading.{read};
ghost use Rattle.machine.specs.Machine.{run, begin};
ghost use Rattle.machine.specs.Laws.{state_of};
ghost use Rattle.listing.specs.Lines.{listing_of};
ghost use Rattle.session.specs.Listed.{listed_by, ListedAs, Judged};

use super::layout::{CLIPS, PATH, enough, few_enough, words_asked};
use listing::things::list_things;
use text::refusal::Refusal;
use text::{count_tokens, store_tokens};
use tokens::Whole;

// Whether a text is listed in so many lent words, and then the steps; or by which refusal, the first that applies, it
// is not.
fn judge(source: &[u8], steps: u64, words: usize) -> Result<u32, Refusal>
    ensures { Judged result (read whole source.now) steps words }
{
    let tokens = count_tokens::<Whole>(source)?;
    let steps = few_enough(steps)?;
    enough(words, words_asked(tokens, 0), 0)?;
    Ok(steps)
}

// Lists the tokens at the front of the words, with the words behind them for the path and the clips. All words are 0
// after.
fn list_stored(words: &mut [u64], used: usize, bytes: &mut [u8], steps: u32) -> u64
    requires { used + 6144 ≤ length words.old }
    ensures value { result ≡ min (length (listing_of (state_of (run steps (begin (decode (take used words.old))))))) 18446744073709551615 }
    ensures words { words.new ≡ replicate (length words.old) 0 }
    ensures bytes { bytes.new ≡ take (length bytes.old) (listing_of (state_of (run steps (begin (decode (take used words.old)))))) ++ drop (length (listing_of (state_of (run steps (begin (decode (take used words.old))))))) bytes.old }
{
    let (text, work) = words.split_at_mut(used);
    let (path, clips) = work.split_at_mut(PATH);
    let length = list_things(text, path, clips, bytes, steps);
    words.fill(0);
    length
}

// Lists what a job paints, and says how long the listing is, or 2^64 - 1 if it is longer; as much of it as fits stands
// at the front of the bytes. The words that were used are 0 after, and a refusal leaves all lent memory as it was.
pub fn list_paints(
    source: &[u8],
    steps: u64,
    words: &mut [u64],
    bytes: &mut [u8],
) -> Result<u64, Refusal>
    ensures { ListedAs result (listed_by (read whole source.now) steps (length words.old)) words.old bytes.old words.new bytes.new }
{
    let steps = judge(source, steps, words.len())?;
    let used = store_tokens::<Whole>(source, words)?;
    let end = used + PATH + CLIPS;
    Ok(list_stored(&mut words[0..end], used, bytes, steps))
}
