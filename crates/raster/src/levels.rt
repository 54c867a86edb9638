ghost use Rattle.std.specs.Prelude.{◌≡◌};
ghost use Rattle.path.specs.Stored.{paths_in};
ghost use Rattle.raster.specs.Levels.{clips_top, clips_bottom};

use path::extent::{Extent, extent_ahead};
use path::stored::Clips;

// What every clip leaves of an extent.
pub fn narrowed(extent: Extent, clips: &[u64]) -> Extent
    ensures top { result.top ≡ clips_top extent.top (paths_in clips.now) }
    ensures bottom { result.bottom ≡ clips_bottom extent.bottom (paths_in clips.now) }
{
    let Extent {
        mut top,
        mut bottom,
    } = extent;
    for path in Clips::new(clips) {
        let reached = extent_ahead(path);
        top = top.max(reached.top);
        bottom = bottom.min(reached.bottom);
    }
    Extent { top, bottom }
}
