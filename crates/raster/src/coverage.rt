ghost use Rattle.std.specs.Prelude.{◌≡◌, ℕ, ◌+◌, ◌*◌, ◌<◌, ◌≤◌, ◌&&◌, length, if◌then◌else◌, slice_index};
ghost use Rattle.bits.specs.Row.{bit_at};
ghost use Rattle.path.specs.Reading.{rings_left};
ghost use Rattle.path.specs.Stored.{rings_in, paths_in};
ghost use Rattle.raster.specs.Coverage.{in_path, in_all};

use super::WORDS;
use super::crossing::cross_path;
use super::thing::Thing;
use bits::row::Row;
use path::stored::{Clips, Subpaths};

// Begins a row of `len` words, and sets the bits of its dots from `left` on that the path covers at the level.
fn cover(row: &mut Row<WORDS>, len: usize, path: Subpaths, level: u32, left: usize)
    requires { len ≤ WORDS }
    ensures value { (x : ℕ) → left ≤ x → x < 64 * len → bit_at row.new.words x ≡ in_path (rings_left path.entry) (16 * x + 8) level }
    ensures len { row.new.len ≡ len }
{
    row.clear(len);
    cross_path(row, path, level, left);
    row.sweep();
}

// Keeps the bits of the dots that every clip covers too. `mask` is for one clip's bits, as far as the row's are set.
fn clip(row: &mut Row<WORDS>, mask: &mut Row<WORDS>, clips: &[u64], level: u32)
    ensures { (x : ℕ) → bit_at row.new.words x ≡ (bit_at row.old.words x && in_all (paths_in clips.now) (16 * x + 8) level) }
{
    let span = row.span();
    let left = 64 * span.start;
    for path in Clips::new(clips) {
        cover(mask, span.end, path, level, left);
        row.keep_common(mask);
    }
}

// Writes grey to the dots of a row that the thing covers at the level. Both rows of bits are only room for it.
pub fn paint_row(
    dots: &mut [u8],
    thing: Thing,
    level: u32,
    row: &mut Row<WORDS>,
    mask: &mut Row<WORDS>,
)
    requires { length dots.old ≤ 8192 }
    ensures { (x : ℕ) → x < length dots.old → slice_index dots.new x ≡ (if in_path (rings_in thing.entry.path.now) (16 * x + 8) level && in_all (paths_in thing.entry.clips.now) (16 * x + 8) level then thing.entry.grey else slice_index dots.old x) }
{
    cover(
        row,
        dots.len().div_ceil(64),
        Subpaths::new(thing.path),
        level,
        0,
    );
    let span = row.span();
    if span.start < span.end {
        clip(row, mask, thing.clips, level);
        row.paint(dots, thing.grey);
    }
}
