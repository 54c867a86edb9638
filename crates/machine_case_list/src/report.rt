ghost use Rattle.std.specs.Prelude.{ℕ, ◌+◌, ◌%◌, true, []};

use super::tried::Tried;
use path::extent::Extent;
use run::drive::{Ending, Sink};
use run::job::run_job;

// how much was painted, in which grey last, and how many pages were shown
#[derive(Drop)]
struct Tally {
    things: u32,
    grey: u8,
    pages: u32,
}

impl Sink for Tally {
    ghost View = { ℕ × ℕ × ℕ };

    ghost view = { λ s. (s.things, s.grey, s.pages) };

    ghost paint = { λ p v. ((v.0 + 1) % 4294967296, p.grey, v.2) };

    ghost page = { λ v. (v.0, v.1, (v.2 + 1) % 4294967296) };

    ghost more = { λ v. true };

    ghost lent = { λ s. [] };

    fn painted(&mut self, _path: &[u64], _extent: Extent, _clips: &[u64], grey: u8) {
        self.things = self.things.wrapping_add(1);
        self.grey = grey;
    }

    fn shown(&mut self) -> bool {
        self.pages = self.pages.wrapping_add(1);
        true
    }
}

// What a stage makes of a job, on a line.
pub fn report<S: Tried>(
    rt: &HostRuntime,
    name: &str,
    tokens: &[u64],
    steps: u32,
) -> anyhow::Result<()> {
    let mut words = [7; 3072];
    let mut clips = vec![in rt.alloc(); 7u64; S::CLIPS]?;
    let mut tally = Tally {
        things: 0,
        grey: 0,
        pages: 0,
    };
    let ending = run_job::<S, Tally>(tokens, &mut words, &mut clips, &mut tally, steps);
    let Tally {
        things,
        grey,
        pages,
    } = tally;
    print!(rt; "{name}: pages {pages}, things {things}, grey {grey}, ")?;
    match ending {
        Ending::Finished => println!(rt; "ending 0")?,
        Ending::Failed(fault) => println!(rt; "ending {}", u8::from(fault))?,
        Ending::Unsupported(op) => println!(rt; "operator {}", u8::from(op))?,
        Ending::Stopped => println!(rt; "stopped")?,
    }
    Ok(())
}
