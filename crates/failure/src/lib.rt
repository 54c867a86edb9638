// How a program is called and how it ends: the number behind an option, the job that is named, and why a program ends with
// status 1, which it says with its name in front, on standard error.
//
//   print_job --width 3 square.job     print_job: unknown option --with: --help lists the options
//                     |     |          |          |
//                number     read_job   end        unknown
#![tactic(auto)]

ghost use Rattle.std.specs.Prelude.{◌≡◌, ◌≤◌, IfErr, IfOk, MatchResult, ⊤};
ghost use Rattle.std.specs.Process.{exit_status};
ghost use Rattle.failure.specs.Messages.{Message, unknown_bytes};
ghost use Rattle.failure.specs.declared.Failure.TheVariants.{NoMemory};

use std::alloc::{AllocError, Global};
use std::io::Read;
use std::process::ExitCode;
use std::{fmt, fs, io};

#[derive(Drop)]
pub enum Failure {
    // what is wrong with the program's words or its file, and what to do
    Said(String),
    // the same, where it names no word or file
    Told(&'static str),
    NoMemory,
    Io(io::Error),
}

impl From<AllocError> for Failure {
    ghost from_gives = { λ _ failure. failure ≡ NoMemory };

    fn from(_e: AllocError) -> Failure {
        Failure::NoMemory
    }
}

impl From<io::Error> for Failure {
    fn from(e: io::Error) -> Failure {
        Failure::Io(e)
    }
}

impl fmt::Display for Failure {
    fn fmt<W: fmt::Write>(&self, f: &mut fmt::Formatter<W>) -> fmt::Result {
        match self {
            Failure::Said(message) => write!(f, "{message}"),
            Failure::Told(message) => write!(f, "{message}"),
            Failure::NoMemory => write!(f, "memory allocation failed"),
            Failure::Io(e) => write!(f, "{e}"),
        }
    }
}

// No program has this option.
pub fn unknown(heap: Global, option: &str) -> Failure
    ensures { Message (λ bytes. bytes ≡ unknown_bytes option.now) result }
{
    match format!(in heap; "unknown option {option}: --help lists the options") {
        Ok(message) => Failure::Said(message),
        Err(e) => Failure::from(e),
    }
}

// The number behind an option, within its range.
pub fn number(heap: Global, option: &str, text: &str, least: u64, most: u64) -> Result<u64, Failure>
    ensures { IfOk result (λ n. (least ≤ n) × (n ≤ most)) }
{
    match text.parse::<u64>() {
        Ok(n) if least <= n && n <= most => Ok(n),
        _ => Err(Failure::Said(format!(in heap;
            "{option} takes a whole number from {least} to {most}, not '{text}'"
        )?)),
    }
}

fn bytes_of(rt: &HostRuntime, file: &str) -> io::Result<Vec<u8>> {
    if file == "-" {
        let mut bytes = Vec::new(rt.alloc());
        rt.stdin().read_to_end(&mut bytes)?;
        return Ok(bytes);
    }
    fs::read(rt, file)
}

// The bytes of a file, or of standard input where it is -. Where they cannot be read, the advice stands behind the reason.
pub fn read_job(rt: &HostRuntime, file: &str, advice: &str) -> Result<Vec<u8>, Failure>
    ensures { IfErr result (λ e. Message (λ _. ⊤) e) }
{
    match bytes_of(rt, file) {
        Ok(bytes) => Ok(bytes),
        Err(e) => Err(Failure::Said(format!(in rt.alloc(); "cannot read {file}: {e}{advice}")?)),
    }
}

// Status 0 where the work is done; else status 1, with the reason behind the program's name.
pub fn end(rt: &HostRuntime, program: &str, done: Result<(), Failure>) -> io::Result<ExitCode>
    ensures { IfOk result (λ code. MatchResult done (λ _. exit_status code ≡ 0) (λ _. exit_status code ≡ 1)) }
{
    match done {
        Ok(()) => Ok(ExitCode::SUCCESS),
        Err(e) => {
            eprintln!(rt; "{program}: {e}")?;
            Ok(ExitCode::FAILURE)
        }
    }
}
