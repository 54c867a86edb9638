ghost use Rattle.std.specs.Prelude.{◌≡◌, true, false, take, OnOk, OnErr};
ghost use Rattle.tokens.specs.Token.{keeps, back};
ghost use Rattle.path.specs.Path.{finished};
ghost use Rattle.path.specs.Building.{rings_of, ring_of};
ghost use Rattle.machine.specs.Machine.{operate};
ghost use Rattle.machine.specs.Clips.{clips_in};
ghost use Rattle.machine.specs.Abstraction.{Past, state, after, place_of, with_grey, with_scale, with_corner, with_clip, clip_fits, Placed};

use super::Machine;
use crate::event::{Event, Fault};
use crate::stage::Clipping;
use path::builder::Path;
use path::corner::Corner;
use stack::Full;

impl<'s, 'a, S: Clipping> Machine<'s, 'a, S> {
    pub fn grey(&self) -> u8
        ensures { result ≡ self.now.drawing.graphics.grey }
    {
        self.drawing.graphics().grey
    }

    pub fn scale(&self) -> u32
        ensures { result ≡ self.now.drawing.graphics.scale }
    {
        self.drawing.graphics().scale
    }

    // the words of the clips in force
    pub fn clip_words(&self) -> &[u64]
        ensures { result.now ≡ take self.now.drawing.graphics.clips self.now.drawing.clips.now }
    {
        self.drawing.clip_words()
    }

    // a point of the page under the graphics state, unless it is too far from the corner
    pub fn place(&self, a: u32, b: u32) -> Option<Corner>
        ensures { Placed result (place_of self.now.drawing.graphics a b) }
    {
        self.drawing.graphics().place(a, b)
    }

    pub fn set_grey(&mut self, grey: u8)
        ensures { (p : Path) (t : Past) → state self.new p t ≡ with_grey (state self.old p t) grey }
    {
        self.drawing.set_grey(grey);
    }

    pub fn set_scale(&mut self, scale: u32)
        ensures { (p : Path) (t : Past) → state self.new p t ≡ with_scale (state self.old p t) scale }
    {
        self.drawing.set_scale(scale);
    }

    pub fn set_corner(&mut self, x: u32, y: u32)
        ensures { (p : Path) (t : Past) → state self.new p t ≡ with_corner (state self.old p t) x y }
    {
        self.drawing.set_corner(x, y);
    }

    // the path is one more clip, if there are not too many
    pub fn append_clip(&mut self, path: &Path<'_>) -> Result<(), Full>
        requires { S.can 14 ≡ true }
        ensures ok { OnOk result ((clip_fits (clips_in (take self.old.drawing.graphics.clips self.old.drawing.clips.now)) (finished (rings_of path.now) (ring_of path.now)) ≡ true) × ((p : Path) (t : Past) → state self.new p t ≡ with_clip (state self.old p t) (finished (rings_of path.now) (ring_of path.now)))) }
        ensures err { OnErr result ((clip_fits (clips_in (take self.old.drawing.graphics.clips self.old.drawing.clips.now)) (finished (rings_of path.now) (ring_of path.now)) ≡ false) × ((p : Path) (t : Past) → state self.new p t ≡ state self.old p t)) }
    {
        self.drawing.append_clip(path)
    }

    // the graphics state is kept, and stays in force
    pub fn keep(&mut self) -> Result<Event, Fault>
        ensures { (p : Path) (t : Past) → after result self.new p t ≡ operate (state self.old p t) keeps }
    {
        self.drawing.keep()?;
        Ok(Event::On)
    }

    // the last kept graphics state is in force again, and no longer kept
    pub fn restore(&mut self) -> Result<Event, Fault>
        ensures { (p : Path) (t : Past) → after result self.new p t ≡ operate (state self.old p t) back }
    {
        let Some(()) = self.drawing.restore() else {
            return Err(Fault::NothingKept);
        };
        Ok(Event::On)
    }
}
