ghost use Rattle.std.specs.Prelude.{◌≡◌, ℕ, ◌+◌, ◌-◌, ◌*◌, ◌/◌, ◌<◌, ◌≤◌, min, length, if◌then◌else◌, slice_index};
ghost use Rattle.path.specs.Extent.{ExtentOf};
ghost use Rattle.path.specs.Stored.{rings_in};
ghost use Rattle.raster.specs.Coverage.{covers};
ghost use Rattle.raster.specs.Thing.{painted_by};

use super::coverage::paint_row;
use super::levels::narrowed;
use super::thing::Thing;
use bits::row::Row;
use path::extent::{Extent, extent_of};
use std::ops::Range;

// Rows of a page: `count` rows of `width` dots from row `first` on.
#[derive(Clone, Copy)]
pub struct Band {
    pub width: usize,
    pub first: u32,
    pub count: usize,
    ghost narrow: { width ≤ 8192 },
    ghost near: { first + count ≤ 65536 },
}

impl Band {
    // How many of the rows have their middle above the level.
    fn rows_above(self, level: u32) -> usize
        ensures { result ≡ min ((level + 7) / 16 - self.first) self.count }
    {
        let above = ((level as u64 + 7) / 16).saturating_sub(self.first as u64);
        (above as usize).min(self.count)
    }

    // Those of the rows, counted from the first, that have their middle within the extent.
    fn rows_within(self, extent: Extent) -> Range<usize>
        ensures start { result.start ≡ min ((extent.top + 7) / 16 - self.first) self.count }
        ensures end { result.end ≡ min ((extent.bottom + 7) / 16 - self.first) self.count }
    {
        self.rows_above(extent.top)..self.rows_above(extent.bottom)
    }
}

// A band in lent bytes, one byte a dot; bytes behind its rows are left alone.
#[derive(Drop)]
pub struct Canvas<'b> {
    pub bytes: &'b mut [u8],
    pub band: Band,
    ghost fits: { band.count * band.width ≤ length bytes.now },
}

impl<'b> Canvas<'b> {
    ghost use Rattle.raster.specs.Canvas.{Painted, PaintedIn};

    // Paints a thing.
    pub fn paint(&mut self, thing: Thing)
        ensures painted { Painted self.old self.new (painted_by thing.entry) }
        ensures len { length self.new.bytes.now ≡ length self.old.bytes.now }
        ensures band { self.new.band ≡ self.old.band }
        ensures lent { self.new.bytes.ghost_name ≡ self.old.bytes.ghost_name }
    {
        self.paint_within(thing, extent_of(thing.path));
    }

    // Paints as `paint` does, where the extent is the path's. Rows outside of the extent are left alone, whatever
    // extent that is, so a thing that does not reach the band costs a comparison and no walk over its points.
    pub fn paint_within(&mut self, thing: Thing, extent: Extent)
        ensures within { PaintedIn self.old self.new (painted_by thing.entry) extent }
        ensures after { ExtentOf extent (rings_in thing.entry.path.now) → Painted self.old self.new (painted_by thing.entry) }
        ensures len { length self.new.bytes.now ≡ length self.old.bytes.now }
        ensures band { self.new.band ≡ self.old.band }
        ensures lent { self.new.bytes.ghost_name ≡ self.old.bytes.ghost_name }
    {
        let reached = self.band.rows_within(extent);
        if reached.start >= reached.end {
            return;
        }
        let rows = self.band.rows_within(narrowed(extent, thing.clips));
        if rows.start < rows.end {
            self.paint_rows(thing, rows);
        }
    }

    // Paints those rows of the thing, whatever its extent is.
    fn paint_rows(&mut self, thing: Thing, rows: Range<usize>)
        requires { (rows.start ≤ rows.end) × (rows.end ≤ self.old.band.count) }
        ensures value { (r x : ℕ) → rows.start ≤ r → r < rows.end → x < self.old.band.width → slice_index self.new.bytes.now (r * self.old.band.width + x) ≡ (if covers (painted_by thing.entry) x (self.old.band.first + r) then thing.entry.grey else slice_index self.old.bytes.now (r * self.old.band.width + x)) }
        ensures before { (i : ℕ) → i < rows.start * self.old.band.width → slice_index self.new.bytes.now i ≡ slice_index self.old.bytes.now i }
        ensures rest { (i : ℕ) → rows.end * self.old.band.width ≤ i → slice_index self.new.bytes.now i ≡ slice_index self.old.bytes.now i }
        ensures len { length self.new.bytes.now ≡ length self.old.bytes.now }
        ensures band { self.new.band ≡ self.old.band }
        ensures lent { self.new.bytes.ghost_name ≡ self.old.bytes.ghost_name }
    {
        let Band { width, first, .. } = self.band;
        // room for the bits of one row, which is begun anew for each
        let mut row = Row::new(0);
        let mut mask = Row::new(0);
        // by their number and not by `chunks_exact_mut`, which refuses rows of no dots
        for r in rows.start..rows.end {
            let at = r * width;
            let level = 16 * (first + r as u32) + 8;
            paint_row(
                &mut self.bytes[at..at + width],
                thing,
                level,
                &mut row,
                &mut mask,
            );
        }
    }
}
