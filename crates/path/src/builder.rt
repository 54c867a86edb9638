pub mod building;
pub mod reading;

ghost use Rattle.std.specs.Prelude.{◌≡◌, ◌+◌, ◌*◌, ◌<◌, ◌≤◌, true, length, take, slice_index};
ghost use Rattle.path.specs.Path.{points};
ghost use Rattle.path.specs.Stored.{rings_in, complete};
ghost use Rattle.path.specs.Extent.{path_top, path_bottom};
ghost use Rattle.path.specs.declared.builder.TheConstants.{MOST_POINTS, ROOM};

use super::extent::Extent;

// How many points a path has at most.
pub const MOST_POINTS: usize = 1024;

// How many words they take at worst, each a subpath of its own.
pub const ROOM: usize = 3 * MOST_POINTS;

// Why a path takes no more points.
#[derive(Clone, Copy, Debug, PartialEq, Eq)]
pub enum PathError {
    NoSubpath,
    TooManyPoints,
}

// The first `used` words are a path with this extent.
#[derive(Clone, Copy)]
struct Front {
    used: usize,
    extent: Extent,
}

// A path that is being built at the front of lent words: the finished subpaths, which end at `start`, then
// the open one with its count, `last` points. It has `total` points.
#[derive(Drop)]
pub struct Path<'m> {
    words: &'m mut [u64],
    start: usize,
    last: usize,
    total: usize,
    built: Front,
    // until a path is begun, the one that was cleared last
    cleared: Front,
    ghost room: { ROOM ≤ length words.now },
    ghost few: { total ≤ MOST_POINTS },
    ghost short: { built.used ≤ 3 * total },
    // if no subpath is open, the path is empty
    ghost begins: { start ≤ built.used },
    ghost none: { (last ≡ 0 → built.used ≡ 0) },
    ghost ends: { (0 < last → built.used ≡ start + 1 + 2 * last) },
    ghost counts: { (0 < last → slice_index words.now start ≡ last) },
    ghost adds: { points (rings_in (take start words.now)) + last ≡ total },
    // the last finished subpath ends where the open one starts
    ghost whole: { complete (take start words.now) ≡ true },
    ghost top: { built.extent.top ≡ path_top 16777216 (rings_in (take built.used words.now)) },
    ghost bottom: { built.extent.bottom ≡ path_bottom 0 (rings_in (take built.used words.now)) },
    ghost over: { cleared.extent.top ≡ path_top 16777216 (rings_in (take cleared.used words.now)) },
    ghost under: { cleared.extent.bottom ≡ path_bottom 0 (rings_in (take cleared.used words.now)) },
    ghost begun: { (0 < built.used → cleared.used ≡ 0) },
}
