ghost use Rattle.std.specs.Prelude.{◌≡◌, [], ◌∷◌, MatchOption};
ghost use Rattle.tokens.specs.Stored.{decode};
ghost use Rattle.machine.specs.Machine.{enter};
ghost use Rattle.machine.specs.Abstraction.{Past, state, after, frames_of, frame_of, tail, with_top, without_top};

use super::{Frame, Machine};
use crate::event::{Event, Fault};
use crate::stage::Clipping;
use path::builder::Path;

impl<'s, 'a, S: Clipping> Machine<'s, 'a, S> {
    // the innermost frame
    pub fn top(&self) -> Option<Frame<'a>>
        ensures { MatchOption result (frames_of self.now ≡ []) (λ f. frames_of self.now ≡ frame_of f ∷ tail (frames_of self.now)) }
    {
        self.frames.at(0)
    }

    pub fn replace_top(&mut self, f: Frame<'a>)
        ensures { (p : Path) (t : Past) → state self.new p t ≡ with_top (state self.old p t) (frame_of f.entry) }
    {
        self.frames.set(0, f);
    }

    pub fn leave(&mut self)
        ensures { (p : Path) (t : Past) → state self.new p t ≡ without_top (state self.old p t) }
    {
        self.frames.drop_top(1);
    }

    // a frame that runs a body so often
    pub fn enter(&mut self, body: &'a [u64], again: u32) -> Result<Event, Fault>
        ensures { (p : Path) (t : Past) → after result self.new p t ≡ enter (state self.old p t) (decode body.now) again }
    {
        self.frames.try_push(Frame {
            rest: &body[0..0],
            again,
            whole: body,
        })?;
        Ok(Event::On)
    }
}
