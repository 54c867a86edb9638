ghost use Rattle.std.specs.Prelude.{◌≡◌, ℕ, suc, ◌+◌, ◌*◌, ◌<◌, ◌≤◌};
ghost use Rattle.bits.specs.Row.{bit_at, odd_below};
ghost use Rattle.path.specs.Points.{point_of};
ghost use Rattle.path.specs.Reading.{points_left, rings_left};
ghost use Rattle.raster.specs.Coverage.{crosses, differ, in_ring, in_path};

use super::WORDS;
use super::edge::crossed;
use bits::row::Row;
use path::corner::Corner;
use path::stored::{Points, Subpaths};

// Changes the bit of the first dot from `left` on that is past the edge's crossing with the level, if the row has such a dot.
fn cross(row: &mut Row<WORDS>, from: Corner, to: Corner, level: u32, left: usize)
    ensures value { (x : ℕ) → left ≤ x → x < 64 * row.old.len → odd_below (bit_at row.new.words) (suc x) ≡ differ (crosses (point_of from) (point_of to) (16 * x + 8) level) (odd_below (bit_at row.old.words) (suc x)) }
    ensures len { row.new.len ≡ row.old.len }
{
    if let Some(dot) = crossed(from, to, level) {
        let x = (dot as usize).max(left);
        if row.has(x) {
            row.toggle(x);
        }
    }
}

// The edges of a subpath, with the one back to its first point.
fn cross_ring(row: &mut Row<WORDS>, points: Points, level: u32, left: usize)
    ensures value { (x : ℕ) → left ≤ x → x < 64 * row.old.len → odd_below (bit_at row.new.words) (suc x) ≡ differ (in_ring (points_left points.entry) (16 * x + 8) level) (odd_below (bit_at row.old.words) (suc x)) }
    ensures len { row.new.len ≡ row.old.len }
{
    let mut others = points;
    let Some(first) = others.next() else {
        return;
    };
    let mut last = first;
    for next in others {
        cross(row, last, next, level, left);
        last = next;
    }
    cross(row, last, first, level, left);
}

// The edges of all subpaths of a path.
pub fn cross_path(row: &mut Row<WORDS>, path: Subpaths, level: u32, left: usize)
    ensures value { (x : ℕ) → left ≤ x → x < 64 * row.old.len → odd_below (bit_at row.new.words) (suc x) ≡ differ (in_path (rings_left path.entry) (16 * x + 8) level) (odd_below (bit_at row.old.words) (suc x)) }
    ensures len { row.new.len ≡ row.old.len }
{
    for points in path {
        cross_ring(row, points, level, left);
    }
}
