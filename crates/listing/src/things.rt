ghost use Rattle.std.specs.Prelude.{◌≡◌, ◌≤◌, min, ◌++◌, length, take, drop, replicate};
ghost use Rattle.tokens.specs.Stored.{decode};
ghost use Rattle.machine.specs.Machine.{run, begin};
ghost use Rattle.machine.specs.Laws.{state_of};
ghost use Rattle.listing.specs.Lines.{listing_of};

use super::sink::ListingSink;
use run::job::run_job;
use tokens::Whole;

// Lists what a job paints, and says how long the listing is, or 2^64 - 1 if it is longer. As much of it as fits stands
// at the front of the bytes; the words for the path and the clips are 0 after.
pub fn list_things(
    tokens: &[u64],
    path: &mut [u64],
    clips: &mut [u64],
    bytes: &mut [u8],
    steps: u32,
) -> u64
    requires { (3072 ≤ length path.old) × (3072 ≤ length clips.old) }
    ensures value { result ≡ min (length (listing_of (state_of (run steps (begin (decode tokens.now)))))) 18446744073709551615 }
    ensures bytes { bytes.new ≡ take (length bytes.old) (listing_of (state_of (run steps (begin (decode tokens.now))))) ++ drop (length (listing_of (state_of (run steps (begin (decode tokens.now)))))) bytes.old }
    ensures path { path.new ≡ replicate (length path.old) 0 }
    ensures clips { clips.new ≡ replicate (length clips.old) 0 }
{
    let mut sink = ListingSink::new(bytes);
    run_job::<Whole, ListingSink<'_>>(tokens, path, clips, &mut sink, steps);
    sink.mark();
    sink.at as u64
}
