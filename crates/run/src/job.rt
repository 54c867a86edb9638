ghost use Rattle.std.specs.Prelude.{◌≡◌, ◌≤◌, length, replicate};
ghost use Rattle.tokens.specs.Stored.{decode};
ghost use Rattle.machine.specs.Machine.{begin};
ghost use Rattle.machine.specs.Stage.{run_of};
ghost use Rattle.run.specs.Sinks.{Driven, EndsOnlyOutside};

use crate::drive::{Ending, Sink, drive};
use machine::stage::Clipping;
use machine::state::{Frame, Machine, Value};
use path::builder::Path;
use stack::Stack;

// all words 0
fn clear_words(words: &mut [u64])
    ensures { words.new ≡ replicate (length words.old) 0 }
{
    words.fill(0);
}

// the machine from the beginning to the end
fn run_over<S: Clipping, E: Sink>(
    tokens: &[u64],
    words: &mut [u64],
    clips: &mut [u64],
    sink: &mut E,
    steps: u32,
) -> Ending
    requires { (3072 ≤ length words.old) × (S.clip_room ≤ length clips.old) }
    ensures driven { Driven (run_of S.can) E.Sink.paint E.Sink.page E.Sink.more result steps (begin (decode tokens.now)) (E.Sink.view sink.old) (E.Sink.view sink.new) }
    ensures lent { E.Sink.lent sink.new ≡ E.Sink.lent sink.old }
    ensures unsupported { EndsOnlyOutside S.can result }
{
    let mut values = Stack::new(Value::Number(0));
    let mut frames = Stack::new(Frame {
        rest: tokens,
        again: 0,
        whole: tokens,
    });
    let mut meanings = [None; 256];
    let mut path = Path::new(words);
    let mut m: Machine<'_, '_, S> = Machine::begin(
        tokens,
        &mut values,
        &mut frames,
        &mut meanings,
        clips,
    );
    drive(&mut m, &mut path, sink, steps)
}

// Runs stored tokens by a stage; the machine stands on the call stack. The words for the path and the clips are 0 after.
pub fn run_job<S: Clipping, E: Sink>(
    tokens: &[u64],
    words: &mut [u64],
    clips: &mut [u64],
    sink: &mut E,
    steps: u32,
) -> Ending
    requires { (3072 ≤ length words.old) × (S.clip_room ≤ length clips.old) }
    ensures driven { Driven (run_of S.can) E.Sink.paint E.Sink.page E.Sink.more result steps (begin (decode tokens.now)) (E.Sink.view sink.old) (E.Sink.view sink.new) }
    ensures words { words.new ≡ replicate (length words.old) 0 }
    ensures clips { clips.new ≡ replicate (length clips.old) 0 }
    ensures lent { E.Sink.lent sink.new ≡ E.Sink.lent sink.old }
    ensures unsupported { EndsOnlyOutside S.can result }
{
    let ending = run_over::<S, E>(tokens, words, clips, sink, steps);
    clear_words(words);
    clear_words(clips);
    ending
}
