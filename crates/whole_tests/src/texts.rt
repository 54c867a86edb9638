// Jobs as texts: each is read, stored and run, and a line tells what came of it.
ghost use Rattle.std.specs.Prelude.{true, []};

use path::extent::Extent;
use run::drive::{Ending, Sink};
use run::job::run_job;
use text::store_tokens;
use tokens::Whole;

// how many steps a job may take where nothing else is said
const PLENTY: u32 = 10000;

// how much was painted; grey, first point and clip words of the last thing; how many pages were shown
#[derive(Drop)]
struct Last {
    things: u32,
    grey: u8,
    x: u64,
    y: u64,
    clips: usize,
    pages: u32,
}

impl Sink for Last {
    ghost View = { Unit {0} };

    ghost view = { λ s. tt };

    ghost paint = { λ p v. v };

    ghost page = { λ v. v };

    ghost more = { λ v. true };

    ghost lent = { λ s. [] };

    fn painted(&mut self, path: &[u64], _extent: Extent, clips: &[u64], grey: u8) {
        self.things = self.things.wrapping_add(1);
        self.grey = grey;
        self.clips = clips.len();
        if 2 < path.len() {
            self.x = path[1];
            self.y = path[2];
        }
    }

    fn shown(&mut self) -> bool {
        self.pages = self.pages.wrapping_add(1);
        true
    }
}

fn print_run(rt: &HostRuntime, tokens: &[u64], steps: u32) -> anyhow::Result<()> {
    let mut words = [7; 3072];
    let mut clips = [7; 3072];
    let mut last = Last {
        things: 0,
        grey: 0,
        x: 0,
        y: 0,
        clips: 0,
        pages: 0,
    };
    let ending = run_job::<Whole, Last>(tokens, &mut words, &mut clips, &mut last, steps);
    let Last {
        things,
        grey,
        x,
        y,
        clips,
        pages,
    } = last;
    print!(rt; "pages {pages}, things {things}, grey {grey}, at {x} {y}, clip words {clips}, ")?;
    match ending {
        Ending::Finished => println!(rt; "ending 0")?,
        Ending::Failed(fault) => println!(rt; "ending {}", u8::from(fault))?,
        _ => println!(rt; "another ending")?,
    }
    Ok(())
}

pub fn report_run(rt: &HostRuntime, name: &str, source: &[u8], steps: u32) -> anyhow::Result<()> {
    let mut words = vec![in rt.alloc(); 0u64; 8192]?;
    print!(rt; "{name}: ")?;
    match store_tokens::<Whole>(source, &mut words) {
        Ok(n) => print_run(rt, &words[0..n.min(words.len())], steps),
        Err(refusal) => {
            println!(rt; "{refusal}")?;
            Ok(())
        }
    }
}

// texts that are their own names
pub fn report_texts(rt: &HostRuntime, texts: &[&str]) -> anyhow::Result<()> {
    for source in texts {
        report_run(rt, source, source.as_bytes(), PLENTY)?;
    }
    Ok(())
}

// so many times a part, and then the rest
pub fn report_many(rt: &HostRuntime, many: u32, part: &str, rest: &str) -> anyhow::Result<()> {
    let mut source = String::new(rt.alloc());
    for _i in 0..many {
        source.push_str(part)?;
    }
    source.push_str(rest)?;
    print!(rt; "{many} times ")?;
    let name = format!(in rt.alloc(); "{part}then {rest}")?;
    report_run(rt, &name, source.as_bytes(), PLENTY)
}
