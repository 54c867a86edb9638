ghost use Rattle.std.specs.Prelude.{◌≡◌, ◌*◌, ◌<◌, ◌≤◌, length, take, nat_lt};
ghost use Rattle.path.specs.Path.{finished};
ghost use Rattle.path.specs.Stored.{rings_in};
ghost use Rattle.path.specs.Extent.{ExtentOf};
ghost use Rattle.path.specs.Building.{rings_of, ring_of, points_of};

use super::super::extent::{Extent, extent_of};
use super::{Path, ROOM};

impl<'m> Path<'m> {
    // Whether there is a subpath that a line can be added to.
    pub fn is_open(&self) -> bool
        ensures { result ≡ nat_lt 0 (length (ring_of self.now)) }
    {
        0 < self.last
    }

    // How many points the path has.
    pub fn points(&self) -> usize
        ensures { result ≡ points_of self.now }
    {
        self.total
    }

    // Between which levels its points lie.
    pub fn extent(&self) -> Extent
        ensures { ExtentOf result (finished (rings_of self.now) (ring_of self.now)) }
    {
        self.built.extent
    }

    // How many words the path takes at the front.
    pub fn used(&self) -> usize
        ensures value { rings_in (take result self.now.words.now) ≡ finished (rings_of self.now) (ring_of self.now) }
        ensures len { result ≤ length self.now.words.now }
        ensures few { result ≤ ROOM }
        ensures short { result ≤ 3 * points_of self.now }
    {
        self.built.used
    }

    // The first `n` words, cut to those that there are.
    pub fn front(&self, n: usize) -> &[u64]
        ensures { result.now ≡ take n self.now.words.now }
    {
        &self.words[..n.min(self.words.len())]
    }

    // The extent of the path that the first `n` words are: known if that is the one that was cleared last.
    pub fn front_extent(&self, n: usize) -> Extent
        ensures { ExtentOf result (rings_in (take n self.now.words.now)) }
    {
        if n == self.cleared.used {
            self.cleared.extent
        } else {
            extent_of(self.front(n))
        }
    }
}
