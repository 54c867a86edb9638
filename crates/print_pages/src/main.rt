// Prints a job: its pages as text or as pictures, and how it ends; or by which number and at which place it is refused.
//
// words of the command line -> options; the job's bytes -> memory lent for it -> a session -> pages, in chunks of rows
#![tactic(auto)]

mod memory;
mod options;
mod pages;

use failure::{Failure, end, read_job};
use memory::{bytes_for, numbers_for};
use options::{Options, command_line};
use pages::{print_pages, print_refusal};
use session::session::open;
use std::io;
use std::process::ExitCode;

const USAGE: &str = "print_pages [options] [FILE]

Prints the job in FILE, or from standard input where FILE is absent or -:
each row of a page as a line, # for black, . for white and + for other greys,
an empty line between pages, and at last 'pages P ending E'. What is refused
is the one line 'refused K at P'.

  --width W       dots in a row of a page, 1 to 8192 (64)
  --height H      rows of a page, 1 to 65535 (32)
  --band B        rows that are asked for at a time, 1 to 64 (64)
  --keep K        how many numbers the printer may keep between bands (0)
  --steps N       how many steps the job may take, up to 1000000000 (that)
  --page P        this page alone, counted from 1
  --rows FROM-TO  these rows of the page alone, counted from 0, TO not included
  --format F      text, or pgm: binary PGM pictures one after the other, and the
                  last line on standard error (text)
  --help          this text";

fn print_job(rt: &HostRuntime, source: &[u8], o: &Options) -> Result<(), Failure> {
    let mut words = numbers_for(rt.alloc(), source, o.order);
    let mut bytes = bytes_for(rt.alloc(), o.order);
    match open(source, o.order, words.as_mut_slice(), bytes.as_mut_slice()) {
        Ok(mut session) => print_pages(rt, &mut session, o),
        Err(refused) => print_refusal(rt, refused.why.number(), refused.why.place()),
    }
}

fn run(rt: &HostRuntime) -> Result<(), Failure> {
    let o = command_line(rt)?;
    if o.help {
        println!(rt; "{USAGE}")?;
        return Ok(());
    }
    let advice = ": give the name of a job, or - for standard input";
    let file = o.file.as_deref().unwrap_or("-");
    let source = read_job(rt, file, advice)?;
    print_job(rt, source.as_slice(), &o)
}

fn main(rt: HostRuntime) -> io::Result<ExitCode> {
    let done = match run(&rt) {
        Err(Failure::NoMemory) => {
            Err(Failure::Told("there is too little memory: try a narrower page"))
        }
        done => done,
    };
    end(&rt, "print_pages", done)
}
