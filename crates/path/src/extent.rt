ghost use Rattle.std.specs.Prelude.{◌≡◌, min, max, []};
ghost use Rattle.path.specs.Reading.{points_left, rings_left};
ghost use Rattle.path.specs.Stored.{rings_in};
ghost use Rattle.path.specs.Extent.{ring_top, ring_bottom, ExtentOf};

use super::corner::LIMIT;
use super::stored::{Points, Subpaths};

// The levels of a path's points, in sixteenths of a dot: no edge crosses one above `top`, or one at or below `bottom`.
#[derive(Clone, Copy, Debug, PartialEq, Eq)]
pub struct Extent {
    pub top: u32,
    pub bottom: u32,
}

impl Extent {
    // That of a path with no point.
    pub fn empty() -> Extent
        ensures { ExtentOf result [] }
    {
        Extent {
            top: LIMIT,
            bottom: 0,
        }
    }

    // The extent with one more point, at the level.
    pub fn reaching(self, level: u32) -> Extent
        ensures top { result.top ≡ min self.top level }
        ensures bottom { result.bottom ≡ max self.bottom level }
    {
        Extent {
            top: self.top.min(level),
            bottom: self.bottom.max(level),
        }
    }
}

// The extent with a subpath's points.
fn with_subpath(extent: Extent, points: Points) -> Extent
    ensures top { result.top ≡ ring_top extent.top (points_left points.entry) }
    ensures bottom { result.bottom ≡ ring_bottom extent.bottom (points_left points.entry) }
{
    let mut reached = extent;
    for corner in points {
        reached = reached.reaching(corner.y);
    }
    reached
}

// The extent of the path whose subpaths these are.
pub fn extent_ahead(path: Subpaths) -> Extent
    ensures { ExtentOf result (rings_left path.entry) }
{
    let mut reached = Extent::empty();
    for points in path {
        reached = with_subpath(reached, points);
    }
    reached
}

// The extent of a stored path.
pub fn extent_of(path: &[u64]) -> Extent
    ensures { ExtentOf result (rings_in path.now) }
{
    extent_ahead(Subpaths::new(path))
}
