// Reads a job from a file or standard input, and says how many tokens it has, or by which number and at which place it is refused.
#![tactic(auto)]

ghost use Rattle.std.specs.Prelude.{◌≤◌};
ghost use Rattle.std.specs.Vec.Iter.{into_iter_len};

use failure::{Failure, end, number, read_job, unknown};
use std::alloc::Global;
use std::env::Args;
use std::process::ExitCode;
use std::{env, io};
use text::count_tokens;
use tokens::Thin;

const USAGE: &str = "print_job [--width W] [--height H] [FILE]

Reads a job from FILE, or from standard input where FILE is absent or -,
and prints 'tokens N', braces counted, or 'refused K at P'.

  --width W    dots in a row of a page, 1 to 8192 (64 where it is absent)
  --height H   rows of a page, 1 to 65535 (64 where it is absent)
  --help       this text

Pages are not printed yet: width and height are checked and no more.";

// What the command line asks for.
#[derive(Drop)]
struct Options {
    width: u64,
    height: u64,
    file: String,
    help: bool,
    ghost wide: { (1 ≤ width) × (width ≤ 8192) },
    ghost tall: { (1 ≤ height) × (height ≤ 65535) },
}

// One word of the command line, with the number behind it where it takes one.
fn take_word(heap: Global, o: &mut Options, word: String, rest: &mut Args) -> Result<(), Failure>
    ensures { into_iter_len rest.new ≤ into_iter_len rest.old }
{
    match word.as_str() {
        "--width" => {
            let lacking = Failure::Told("--width lacks its number, as in --width 64");
            o.width = number(heap, "--width", &rest.next().ok_or(lacking)?, 1, 8192)?;
        }
        "--height" => {
            let lacking = Failure::Told("--height lacks its number, as in --height 64");
            o.height = number(heap, "--height", &rest.next().ok_or(lacking)?, 1, 65535)?;
        }
        "--help" => o.help = true,
        option if option.starts_with("--") => return Err(unknown(heap, option)),
        _ => o.file = word,
    }
    Ok(())
}

fn command_line(rt: &HostRuntime) -> Result<Options, Failure> {
    let heap = rt.alloc();
    let mut o = Options {
        width: 64,
        height: 64,
        file: String::from_str(heap, "-")?,
        help: false,
    };
    let mut words = env::args(rt)?;
    // the program's name
    words.next();
    while let Some(word) = words.next() {
        take_word(heap, &mut o, word, &mut words)?;
    }
    Ok(o)
}

fn print_answer(rt: &HostRuntime, source: &[u8]) -> io::Result<()> {
    match count_tokens::<Thin>(source) {
        Ok(n) => println!(rt; "tokens {n}"),
        Err(refusal) => println!(rt; "{refusal}"),
    }
}

fn run(rt: &HostRuntime) -> Result<(), Failure> {
    let o = command_line(rt)?;
    if o.help {
        println!(rt; "{USAGE}")?;
        return Ok(());
    }
    let bytes = read_job(rt, o.file.as_str(), "")?;
    print_answer(rt, bytes.as_slice())?;
    Ok(())
}

fn main(rt: HostRuntime) -> io::Result<ExitCode> {
    end(&rt, "print_job", run(&rt))
}
