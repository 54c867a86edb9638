// Lists what a job paints: page by page each thing with its grey, its clips, its subpaths and its points.
#![tactic(auto)]

use failure::{Failure, end, number, read_job, unknown};
use session::paints::list_paints;
use std::alloc::{AllocError, Global};
use std::io::Write;
use std::process::ExitCode;
use std::{env, io};
use text::refusal::Refusal;

const USAGE: &str = "list_paints [--steps N] FILE

Reads a job from FILE, or from standard input where FILE is -, and lists what
it paints, or prints 'refused K at P'.

  --steps N    how many steps the job may take, 0 to 1000000000 (1000000000
               where it is absent); what it paints up to there is listed
  --help       this text

A thing has its grey, its subpaths with their points, and the clips that it was
painted under, the oldest first. A point is so many dots from the left and from
the top of the page: 3+8/16 is three dots and eight sixteenths. 'shown as page N'
stands behind the things of a page, the first page is 1; 'never printed' stands
behind what was painted after the last page.";

// How many words are lent: enough for the largest text, 65,536 tokens of two words, and a run.
const WORDS: usize = 137220;

// What the command line asks for.
#[derive(Drop)]
struct Options {
    steps: u64,
    file: Option<String>,
    help: bool,
}

fn command_line(rt: &HostRuntime) -> Result<Options, Failure> {
    let heap = rt.alloc();
    let mut o = Options {
        steps: 1_000_000_000,
        file: None,
        help: false,
    };
    let mut words = env::args(rt)?;
    // the program's name
    words.next();
    while let Some(word) = words.next() {
        match word.as_str() {
            "--steps" => {
                let lacking = Failure::Told("--steps lacks its number, as in --steps 1000");
                let text = words.next().ok_or(lacking)?;
                o.steps = number(heap, "--steps", &text, 0, 1_000_000_000)?;
            }
            "--help" => o.help = true,
            option if option.starts_with("--") => return Err(unknown(heap, option)),
            _ => {
                if o.file.replace(word).is_some() {
                    return Err(Failure::Told("more than one FILE: --help says how it is called"));
                }
            }
        }
    }
    Ok(o)
}

// Why a job is not listed.
enum Unlisted {
    Refused(Refusal),
    NoMemory,
}

impl From<Refusal> for Unlisted {
    fn from(refusal: Refusal) -> Unlisted {
        Unlisted::Refused(refusal)
    }
}

impl From<AllocError> for Unlisted {
    fn from(_e: AllocError) -> Unlisted {
        Unlisted::NoMemory
    }
}

// The whole listing: a first run says how long it is, and a second writes it.
fn listing(heap: Global, source: &[u8], steps: u64) -> Result<Vec<u8>, Unlisted> {
    let mut words = vec![in heap; 0u64; WORDS]?;
    let length = list_paints(source, steps, words.as_mut_slice(), &mut [])?;
    let mut bytes = vec![in heap; 0u8; length as usize]?;
    list_paints(source, steps, words.as_mut_slice(), bytes.as_mut_slice())?;
    Ok(bytes)
}

fn print_listing(rt: &HostRuntime, source: &[u8], steps: u64) -> Result<(), Failure> {
    match listing(rt.alloc(), source, steps) {
        Ok(bytes) => rt.stdout().write_all(bytes.as_slice())?,
        Err(Unlisted::Refused(refusal)) => println!(rt; "{refusal}")?,
        Err(Unlisted::NoMemory) => return Err(Failure::NoMemory),
    }
    Ok(())
}

fn run(rt: &HostRuntime) -> Result<(), Failure> {
    let Options { steps, file, help } = command_line(rt)?;
    if help {
        println!(rt; "{USAGE}")?;
        return Ok(());
    }
    let file = file.ok_or(Failure::Told("no FILE: --help says how it is called"))?;
    let bytes = read_job(rt, file.as_str(), "")?;
    print_listing(rt, bytes.as_slice(), steps)
}

fn main(rt: HostRuntime) -> io::Result<ExitCode> {
    end(&rt, "list_paints", run(&rt))
}
