ghost use Rattle.std.specs.Prelude.{◌≡◌, ◌+◌, ◌*◌, ◌≤◌, true, false, [], ◌++◌, length, drop, replicate, nat_lt, slice_index_or};
ghost use Rattle.tokens.specs.Stored.{decode};
ghost use Rattle.machine.specs.Machine.{begin, run};
ghost use Rattle.machine.specs.Laws.{state_of};
ghost use Rattle.raster.specs.Coverage.{rows};

use crate::sink::BandSink;
use raster::band::Band;
use run::job::run_job;
use tokens::Whole;

// the first n bytes white
fn whiten(bytes: &mut [u8], n: usize)
    requires { n ≤ length bytes.old }
    ensures { bytes.new ≡ replicate n 255 ++ drop n bytes.old }
{
    bytes[0..n].fill(255);
}

// Runs a job for a band of one of its pages, and no further than that page; says whether the page was shown.
// All bytes are 0 if it was not; the words for the path and the clips are 0 after.
pub fn run_band(
    tokens: &[u64],
    path: &mut [u64],
    clips: &mut [u64],
    bytes: &mut [u8],
    steps: u32,
    page: u64,
    band: Band,
) -> bool
    requires path { (3072 ≤ length path.old) × (3072 ≤ length clips.old) }
    requires len { band.count * band.width ≤ length bytes.old }
    ensures shown { result ≡ nat_lt page (length (state_of (run steps (begin (decode tokens.now)))).pages) }
    ensures rows { result ≡ true → bytes.new ≡ rows (slice_index_or (state_of (run steps (begin (decode tokens.now)))).pages page []) band.width band.first band.count ++ drop (band.count * band.width) bytes.old }
    ensures none { result ≡ false → bytes.new ≡ replicate (length bytes.old) 0 }
    ensures path { path.new ≡ replicate (length path.old) 0 }
    ensures clips { clips.new ≡ replicate (length clips.old) 0 }
{
    whiten(bytes, band.count * band.width);
    let mut sink = BandSink {
        bytes: &mut *bytes,
        band,
        before: page,
        done: false,
    };
    run_job::<Whole, BandSink<'_>>(tokens, path, clips, &mut sink, steps);
    let shown = sink.done;
    if !shown {
        bytes.fill(0);
    }
    shown
}
