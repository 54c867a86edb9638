ghost use Rattle.std.specs.Prelude.{◌≡◌, Bool, false, List};
ghost use Rattle.std.specs.Borrow.{GName};
ghost use Rattle.path.specs.Path.{Paint};
ghost use Rattle.path.specs.Extent.{ExtentOf};
ghost use Rattle.path.specs.Stored.{rings_in};
ghost use Rattle.machine.specs.Abstraction.{no_past, state, paint_in};
ghost use Rattle.machine.specs.Laws.{state_of};
ghost use Rattle.machine.specs.Stage.{run_of};
ghost use Rattle.run.specs.Sinks.{Driven, EndsOnlyOutside, ending_number, is_stopped, past_of};

use machine::event::{Event, Fault};
use machine::stage::Clipping;
use machine::state::Machine;
use operators::stepping::step;
use path::builder::Path;
use path::extent::Extent;
use tokens::Operator;

// how a run ends: by itself, by a fault, at an operator that its stage can't do; or its sink has seen enough
#[derive(Clone, Copy, Debug, PartialEq, Eq)]
pub enum Ending {
    Finished,
    Failed(Fault),
    Unsupported(Operator),
    Stopped,
}

// as it is told to the outside: 0, the number of the fault, or 9 and the number of the operator
impl From<Ending> for u8 {
    ghost from_gives = { λ ending n. n ≡ ending_number ending };

    fn from(ending: Ending) -> u8 {
        match ending {
            Ending::Finished | Ending::Stopped => 0,
            Ending::Failed(fault) => u8::from(fault),
            Ending::Unsupported(op) => 9 + u8::from(op),
        }
    }
}

// What is done with what a job paints and shows; after a page a sink says whether it wants more. `lent` names the
// memory that a sink holds: the same at each event.
pub trait Sink: Sized {
    ghost View: { Type 0 };

    ghost view: { Self → View };

    ghost paint: { Paint → View → View };

    ghost page: { View → View };

    ghost more: { View → Bool };

    ghost lent: { Self → List GName };

    fn painted(&mut self, path: &[u64], extent: Extent, clips: &[u64], grey: u8)
        ensures seen { ExtentOf extent (rings_in path.now) → view self.new ≡ paint (paint_in path.now clips.now grey) (view self.old) }
        ensures lent { lent self.new ≡ lent self.old };

    fn shown(&mut self) -> bool
        ensures value { result ≡ more (view self.new) }
        ensures seen { view self.new ≡ page (view self.old) }
        ensures lent { lent self.new ≡ lent self.old };
}

// Runs a job to its end, until its steps are used up, or until its sink wants no more, and tells the sink what it
// paints and shows.
pub fn drive<'s, 'a, S: Clipping, E: Sink>(
    m: &mut Machine<'s, 'a, S>,
    path: &mut Path<'_>,
    sink: &mut E,
    steps: u32,
) -> Ending
    ensures driven { Driven (run_of S.can) E.Sink.paint E.Sink.page E.Sink.more result steps (state m.old path.old no_past) (E.Sink.view sink.old) (E.Sink.view sink.new) }
    ensures after { is_stopped result ≡ false → state m.new path.new (past_of (run_of S.can steps (state m.old path.old no_past))) ≡ state_of (run_of S.can steps (state m.old path.old no_past)) }
    ensures lent { E.Sink.lent sink.new ≡ E.Sink.lent sink.old }
    ensures unsupported { EndsOnlyOutside S.can result }
{
    for i in 0..steps {
        let event = match step(m, path) {
            Ok(event) => event,
            Err(fault) => return Ending::Failed(fault),
        };
        match event {
            Event::On => {}
            Event::Painted(n) => {
                sink.painted(
                    path.front(n),
                    path.front_extent(n),
                    m.clip_words(),
                    m.grey(),
                )
            }
            Event::Shown => {
                if !sink.shown() {
                    return Ending::Stopped;
                }
            }
            Event::Finished => return Ending::Finished,
            Event::Unsupported(op) => return Ending::Unsupported(op),
        }
    }
    if m.is_finished() {
        Ending::Finished
    } else {
        Ending::Failed(Fault::StepsUsedUp)
    }
}
