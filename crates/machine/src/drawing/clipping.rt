ghost use Rattle.std.specs.Prelude.{◌≡◌, ◌+◌, ◌≤◌, true, false, ◌++◌, length, take, drop, OnOk, OnErr};
ghost use Rattle.path.specs.Path.{finished};
ghost use Rattle.path.specs.Building.{rings_of, ring_of};
ghost use Rattle.machine.specs.Abstraction.{manner_of, saved_of, clip_fits, clipped_by};

use super::Drawing;
use crate::stage::Clipping;
use path::builder::Path;
use stack::Full;

// paths and points of the clips in force, together
const HEAVIEST: usize = 1024;

// Words in their place among others.
fn put_words(words: &mut [u64], at: usize, part: &[u64])
    requires { at + length part.now ≤ length words.old }
    ensures { words.new ≡ take at words.old ++ (part.now ++ drop (at + length part.now) words.old) }
{
    words[at..at + part.len()].copy_from_slice(part);
}

impl<'c, S: Clipping> Drawing<'c, S> {
    // the path is one more clip, if there are not too many
    pub fn append_clip(&mut self, path: &Path<'_>) -> Result<(), Full>
        requires { S.can 14 ≡ true }
        ensures ok { OnOk result ((clip_fits (manner_of self.old).clips (finished (rings_of path.now) (ring_of path.now)) ≡ true) × (manner_of self.new ≡ clipped_by (manner_of self.old) (finished (rings_of path.now) (ring_of path.now)))) }
        ensures err { OnErr result ((clip_fits (manner_of self.old).clips (finished (rings_of path.now) (ring_of path.now)) ≡ false) × (manner_of self.new ≡ manner_of self.old)) }
        ensures saved { saved_of self.new ≡ saved_of self.old }
    {
        let points = path.points();
        if points >= HEAVIEST - self.graphics.weight {
            return Err(Full);
        }
        let n = path.used();
        let at = self.graphics.clips;
        let clips = &mut *self.clips;
        clips[at] = n as u64;
        put_words(clips, at + 1, path.front(n));
        self.graphics.clips = at + 1 + n;
        self.graphics.weight += 1 + points;
        Ok(())
    }
}
