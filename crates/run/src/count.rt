ghost use Rattle.std.specs.Prelude.{◌≡◌, ℕ, ◌+◌, ◌%◌, ◌≤◌, true, false, [], length, replicate};
ghost use Rattle.tokens.specs.Stored.{decode};
ghost use Rattle.machine.specs.Machine.{begin};
ghost use Rattle.machine.specs.Stage.{run_of};
ghost use Rattle.machine.specs.Laws.{state_of, end_of};
ghost use Rattle.run.specs.Sinks.{EndsOnlyOutside, ending_number, is_stopped};

use crate::drive::{Ending, Sink};
use crate::job::run_job;
use machine::stage::Clipping;
use path::extent::Extent;

// how many pages a job has shown
#[derive(Drop)]
pub struct PageCount {
    pub pages: u32,
}

impl Sink for PageCount {
    ghost View = { ℕ };

    ghost view = { λ s. s.pages };

    ghost paint = { λ p n. n };

    ghost page = { λ n. (n + 1) % 4294967296 };

    ghost more = { λ n. true };

    ghost lent = { λ s. [] };

    fn painted(&mut self, _path: &[u64], _extent: Extent, _clips: &[u64], _grey: u8) {}

    fn shown(&mut self) -> bool {
        self.pages = self.pages.wrapping_add(1);
        true
    }
}

#[derive(Clone, Copy, Debug, PartialEq, Eq)]
pub struct Outcome {
    pub pages: u32,
    pub ending: Ending,
}

// how a job ends, and how many pages it shows
pub fn count_pages<S: Clipping>(
    tokens: &[u64],
    words: &mut [u64],
    clips: &mut [u64],
    steps: u32,
) -> Outcome
    requires { (3072 ≤ length words.old) × (S.clip_room ≤ length clips.old) }
    ensures pages { result.pages ≡ length (state_of (run_of S.can steps (begin (decode tokens.now)))).pages }
    ensures words { words.new ≡ replicate (length words.old) 0 }
    ensures clips { clips.new ≡ replicate (length clips.old) 0 }
    ensures whole { is_stopped result.ending ≡ false }
    ensures unsupported { EndsOnlyOutside S.can result.ending }
    ensures ended { ending_number result.ending ≡ end_of (run_of S.can steps (begin (decode tokens.now))) }
{
    let mut count = PageCount { pages: 0 };
    let ending = run_job::<S, PageCount>(tokens, words, clips, &mut count, steps);
    Outcome {
        pages: count.pages,
        ending,
    }
}
