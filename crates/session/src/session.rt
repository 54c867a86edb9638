ghost use Rattle.std.specs.Prelude.{◌≡◌, ◌+◌, ◌*◌, ◌≤◌, [], ◌∷◌, length, take, replicate, Ok, Err};
ghost use Rattle.tokens.specs.Stage.{whole};
ghost use Rattle.lexer.specs.Reading.{read};
ghost use Rattle.session.specs.Jobs.{Job, answer};
ghost use Rattle.session.specs.Promise.{Serves};
ghost use Rattle.session.specs.Regions.{regs, Shaped, says_in, next_in, the_printer};
ghost use Rattle.session.specs.Views.{regions_of, memory_of, asked_of, answer_of, order_of, opened_of, Admitted, OpenedRight};

use super::layout::{CLIPS, HEADER, PATH, ROWS, enough, in_range, words_asked};
use super::order::{Order, Refused};
use super::question::{Question, Reply};
use text::refusal::Refusal;
use text::{count_tokens, store_tokens};
use tokens::Whole;

// The lent memory of an opened job, cut into its regions.
#[derive(Drop)]
pub struct Session<'m> {
    pub(super) text: &'m [u64],
    pub(super) header: &'m [u64],
    pub(super) path: &'m mut [u64],
    pub(super) clips: &'m mut [u64],
    kept: &'m mut [u64],
    pub(super) bytes: &'m mut [u8],
}

fn put_header(header: &mut [u64], order: Order)
    requires { length header.old ≡ 4 }
    ensures { header.new ≡ order.steps ∷ (order.width ∷ (order.height ∷ (order.kept ∷ []))) }
{
    header[0] = order.steps;
    header[1] = order.width;
    header[2] = order.height;
    header[3] = order.kept;
}

// Cuts the lent memory behind the stored tokens, once: header, path, clips, kept; zeros wherever nothing is stored.
fn lay<'m>(used: usize, order: Order, words: &'m mut [u64], bytes: &'m mut [u8]) -> Session<'m>
    requires words { used + 6148 + order.kept ≤ length words.old }
    requires bytes { (64 * order.width ≤ length bytes.old) × (order.width ≤ 8192) }
    ensures rooms { (length result.path.now ≡ 3072) × (length result.clips.now ≡ 3072) }
    ensures regions { regions_of result ≡ regs (take used words.old) (order.steps ∷ (order.width ∷ (order.height ∷ (order.kept ∷ [])))) (replicate (length result.path.now) 0) (replicate (length result.clips.now) 0) (replicate order.kept 0) (replicate (64 * order.width) 0) }
{
    let (text, words) = words.split_at_mut(used);
    let (header, words) = words.split_at_mut(HEADER);
    let (path, words) = words.split_at_mut(PATH);
    let (clips, words) = words.split_at_mut(CLIPS);
    let (kept, _spare) = words.split_at_mut(order.kept as usize);
    let (bytes, _over) = bytes.split_at_mut(ROWS * order.width as usize);
    put_header(header, order);
    kept.fill(0);
    let mut session = Session {
        text,
        header,
        path,
        clips,
        kept,
        bytes,
    };
    session.zero_all();
    session
}

// Whether a job is opened in so much lent memory, or by which refusal, the first that applies, it is not.
fn admit(source: &[u8], order: Order, words: usize, bytes: usize) -> Result<(), Refusal>
    ensures { Admitted result (order_of source.now order words bytes) (read whole source.now) }
{
    let tokens = count_tokens::<Whole>(source)?;
    in_range(order)?;
    enough(words, words_asked(tokens, order.kept), 0)?;
    enough(bytes, ROWS as u128 * order.width as u128, 1)
}

// Opens a job over lent memory, or refuses it by the first number that applies and gives the memory back as it was.
pub fn open<'m>(
    source: &[u8],
    order: Order,
    words: &'m mut [u64],
    bytes: &'m mut [u8],
) -> Result<Session<'m>, Refused<'m>>
    ensures opened { opened_of result ≡ the_printer.opens (order_of source.now order (length words.old) (length bytes.old)) }
    ensures memory { elim result [ Ok s ↦ Shaped (regions_of s) | Err e ↦ (e.words.now ≡ words.old) × (e.bytes.now ≡ bytes.old) ] }
    ensures serves { OpenedRight result (order_of source.now order (length words.old) (length bytes.old)) }
{
    if let Err(why) = admit(source, order, words.len(), bytes.len()) {
        return Err(Refused { why, words, bytes });
    }
    match store_tokens::<Whole>(source, words) {
        Ok(used) => Ok(lay(used, order, words, bytes)),
        Err(why) => Err(Refused { why, words, bytes }),
    }
}

impl<'m> Session<'m> {
    // The first `n` bytes: the rows of the last answer.
    pub fn rows(&self, n: usize) -> &[u8]
        ensures { result.now ≡ take n self.now.bytes.now }
    {
        if n < self.bytes.len() {
            &self.bytes[0..n]
        } else {
            &self.bytes[..]
        }
    }

    // Zeros in the regions that a run and its rows have: at first, and after a question that has no room.
    pub(super) fn zero_all(&mut self)
        ensures { regions_of self.new ≡ regs self.old.text.now self.old.header.now (replicate (length self.old.path.now) 0) (replicate (length self.old.clips.now) 0) self.old.kept.now (replicate (length self.old.bytes.now) 0) }
    {
        self.path.fill(0);
        self.clips.fill(0);
        self.bytes.fill(0);
    }

    // Answers a question.
    pub fn ask(&mut self, question: Question) -> Reply
        ensures answer { answer_of result self.new.bytes.now ≡ says_in (regions_of self.old) (asked_of question) }
        ensures memory { regions_of self.new ≡ next_in (regions_of self.old) (asked_of question) }
        ensures printer { Shaped (regions_of self.old) → Shaped (regions_of self.new) × (answer_of result self.new.bytes.now ≡ the_printer.says (memory_of self.old) (asked_of question)) × (memory_of self.new ≡ the_printer.next (memory_of self.old) (asked_of question)) }
        ensures right { (j : Job) → Shaped (regions_of self.old) → Serves the_printer j (memory_of self.old) → (answer_of result self.new.bytes.now ≡ answer j (asked_of question)) × Serves the_printer j (memory_of self.new) }
    {
        self.reply(question)
    }
}
