ghost use Rattle.std.specs.Prelude.{◌≡◌, ◌≤◌, [], length, if◌then◌else◌};
ghost use Rattle.tokens.specs.Stored.{decode};
ghost use Rattle.path.specs.Building.{rings_of, ring_of};
ghost use Rattle.machine.specs.Machine.{State, begin, at_end};
ghost use Rattle.machine.specs.Laws.{end_of};
ghost use Rattle.machine.specs.Abstraction.{no_past, state, frames_of};

use super::{Frame, Machine, Value};
use crate::bindings::Bindings;
use crate::drawing::Drawing;
use crate::stage::Clipping;
use path::builder::Path;
use stack::Stack;

impl<'s, 'a, S: Clipping> Machine<'s, 'a, S> {
    // A machine at the beginning of its tokens. What is large of it stands in the caller, so that none of that is copied.
    pub fn begin(
        tokens: &'a [u64],
        values: &'s mut Stack<Value<'a>, 256>,
        frames: &'s mut Stack<Frame<'a>, 64>,
        meanings: &'s mut [Option<Value<'a>>],
        clips: &'s mut [u64],
    ) -> Machine<'s, 'a, S>
        requires { (length meanings.old ≡ 256) × (S.clip_room ≤ length clips.old) }
        ensures { (p : Path) → rings_of p ≡ [] → ring_of p ≡ [] → state result p no_past ≡ begin (decode tokens.now) }
    {
        values.clear();
        frames.clear();
        frames.push(Frame {
            rest: tokens,
            again: 0,
            whole: &tokens[0..0],
        });
        Machine {
            values,
            frames,
            names: Bindings::new(meanings),
            drawing: Drawing::new(clips),
        }
    }

    // Whether nothing is left to run: a job whose steps are used up then ends by itself.
    pub fn is_finished(&self) -> bool
        ensures { (s : State) → end_of (at_end (frames_of self.now) s) ≡ (if result then 0 else 8) }
    {
        self.frames.is_empty()
    }
}
