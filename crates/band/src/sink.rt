ghost use Rattle.std.specs.Prelude.{◌≡◌, ◌*◌, ◌≤◌, not, [], ◌∷◌, length};
ghost use Rattle.band.specs.Canvas.{Canvas, paint_onto, page_over};

use path::extent::Extent;
pub use raster::band::Band;
use raster::thing::Thing;
use run::drive::Sink;

// A band in lent bytes, painted as a job goes. `before` pages are still to be shown before its own; it is done when
// that is shown, and takes no more.
#[derive(Drop)]
pub struct BandSink<'b> {
    // not as raster's canvas: who lends to a struct in a struct does not learn what is left behind the loan
    pub bytes: &'b mut [u8],
    pub band: Band,
    pub before: u64,
    pub done: bool,
    ghost fits: { band.count * band.width ≤ length bytes.now },
}

impl<'b> Sink for BandSink<'b> {
    ghost View = { Canvas };

    ghost view = { λ s. record { band = s.band; before = s.before; done = s.done; bytes = s.bytes.now } };

    ghost paint = { paint_onto };

    ghost page = { page_over };

    ghost more = { λ c. not c.done };

    ghost lent = { λ s. s.bytes.ghost_name ∷ [] };

    fn painted(&mut self, path: &[u64], extent: Extent, clips: &[u64], grey: u8) {
        if !self.done && self.before == 0 {
            let bytes = &mut *self.bytes;
            let thing = Thing { path, clips, grey };
            let band = self.band;
            raster::band::Canvas { bytes, band }.paint_within(thing, extent);
        }
    }

    fn shown(&mut self) -> bool {
        if !self.done {
            if self.before == 0 {
                self.done = true;
            } else {
                self.before -= 1;
            }
        }
        !self.done
    }
}
