// Painting a band as a C function, so that a Rust program can time it beside a plain loop.
//
// In: words of a path and of its clips, a grey, and the bytes of a band, each slice as a pointer and a
// length. Out: whether the sizes fit, and the band with the thing painted. No C caller is held to a
// `requires`, so what does not fit is refused and nothing is written.
#![tactic(auto)]

ghost use Rattle.std.specs.Prelude.{◌≡◌, true, false, ◌+◌, ◌*◌, ◌≤◌, length};
ghost use Rattle.raster.specs.Band.{PaintedBand};
ghost use Rattle.raster.specs.Thing.{thing};

use raster::band::{Band, Canvas};
use raster::thing::Thing;

#[unsafe(no_mangle)]
pub extern "C" fn raster_paint_band(
    path: &[u64],
    clips: &[u64],
    grey: u8,
    bytes: &mut [u8],
    width: usize,
    first: u32,
    count: usize,
) -> bool
    ensures after { result ≡ true → PaintedBand bytes.old bytes.new width first count (thing path.now clips.now grey) }
    ensures refused { result ≡ false → bytes.new ≡ bytes.old }
    ensures cases { width ≤ 8192 → first + count ≤ 65536 → count * width ≤ length bytes.old → result ≡ true }
{
    if width > 8192 || count > 65536 || first > 65536 - count as u32 {
        return false;
    }
    if count * width > bytes.len() {
        return false;
    }
    let band = Band {
        width,
        first,
        count,
    };
    Canvas { bytes, band }.paint(Thing { path, clips, grey });
    true
}
