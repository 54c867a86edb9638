ghost use Rattle.std.specs.Prelude.{◌≤◌};
ghost use Rattle.std.specs.Vec.Iter.{into_iter_len};

use failure::{Failure, unknown};
use session::order::Order;
use std::alloc::Global;
use std::env;
use std::env::Args;

// How pages are written.
#[derive(Clone, Copy, Debug, PartialEq, Eq)]
pub enum Format {
    Text,
    Pgm,
}

// Rows from one up to before another, counted from 0.
#[derive(Clone, Copy, Debug, PartialEq, Eq)]
pub struct Span {
    pub from: u64,
    pub to: u64,
}

// What the command line asks for; pages are counted from 0 here.
#[derive(Drop)]
pub struct Options {
    pub order: Order,
    pub band: u64,
    pub page: Option<u64>,
    pub rows: Option<Span>,
    pub format: Format,
    pub file: Option<String>,
    pub help: bool,
}

fn is_number(text: &str) -> bool {
    !text.is_empty() && text.bytes().all(|b| b.is_ascii_digit())
}

// A whole number; one beyond 64 bits is cut to the largest, which is out of every range too. Stricter than `failure::number`: no sign.
fn number(heap: Global, option: &str, text: &str) -> Result<u64, Failure> {
    if !is_number(text) {
        return Err(Failure::Said(format!(in heap; "{option} takes a whole number, not '{text}'")?));
    }
    Ok(text.parse::<u64>().unwrap_or(u64::MAX))
}

// A whole number within a range, at least 1.
fn number_up_to(heap: Global, option: &str, text: &str, most: u64) -> Result<u64, Failure> {
    let n = number(heap, option, text)?;
    if n < 1 || n > most {
        return Err(Failure::Said(format!(in heap;
            "{option} takes a number from 1 to {most}, not {text}"
        )?));
    }
    Ok(n)
}

// The rows FROM-TO.
fn rows_of(heap: Global, text: &str) -> Result<Span, Failure> {
    if let Some((from, to)) = text.split_once('-') {
        let from = number(heap, "--rows", from)?;
        let to = number(heap, "--rows", to)?;
        if from <= to {
            return Ok(Span { from, to });
        }
    }
    Err(Failure::Said(format!(in heap;
        "--rows takes FROM-TO, from 0 and TO not included, as in 0-16, not '{text}'"
    )?))
}

fn format_of(heap: Global, text: &str) -> Result<Format, Failure> {
    match text {
        "text" => Ok(Format::Text),
        "pgm" => Ok(Format::Pgm),
        _ => Err(Failure::Said(format!(in heap; "--format takes text or pgm, not '{text}'")?)),
    }
}

// A file, or an option that there is not.
fn take_file(heap: Global, o: &mut Options, word: String) -> Result<(), Failure> {
    if word.as_str().starts_with("-") && word.as_str() != "-" {
        return Err(unknown(heap, word.as_str()));
    }
    if o.file.is_some() {
        return Err(Failure::Said(format!(in heap; "one job at a time: {word} is a second file")?));
    }
    o.file = Some(word);
    Ok(())
}

// The word behind an option.
fn following(heap: Global, words: &mut Args, option: &str) -> Result<String, Failure>
    ensures { into_iter_len words.new ≤ into_iter_len words.old }
{
    match words.next() {
        Some(word) => Ok(word),
        None => Err(Failure::Said(format!(in heap;
            "{option} lacks the word behind it: --help says which"
        )?)),
    }
}

fn defaults() -> Options {
    Options {
        order: Order {
            steps: 1_000_000_000,
            width: 64,
            height: 32,
            kept: 0,
        },
        band: 64,
        page: None,
        rows: None,
        format: Format::Text,
        file: None,
        help: false,
    }
}

// One word of the command line, with the word behind it where it takes one.
fn take_word(heap: Global, o: &mut Options, word: String, rest: &mut Args) -> Result<(), Failure>
    ensures { into_iter_len rest.new ≤ into_iter_len rest.old }
{
    let option = word.as_str();
    match option {
        "--width" => o.order.width = number(heap, option, &following(heap, rest, option)?)?,
        "--height" => o.order.height = number(heap, option, &following(heap, rest, option)?)?,
        "--band" => o.band = number_up_to(heap, option, &following(heap, rest, option)?, 64)?,
        "--keep" => o.order.kept = number(heap, option, &following(heap, rest, option)?)?,
        "--steps" => o.order.steps = number(heap, option, &following(heap, rest, option)?)?,
        "--page" => {
            let page = number_up_to(heap, option, &following(heap, rest, option)?, u64::MAX)?;
            o.page = Some(page.saturating_sub(1));
        }
        "--rows" => o.rows = Some(rows_of(heap, &following(heap, rest, option)?)?),
        "--format" => o.format = format_of(heap, &following(heap, rest, option)?)?,
        "--help" => o.help = true,
        _ => take_file(heap, o, word)?,
    }
    Ok(())
}

pub fn command_line(rt: &HostRuntime) -> Result<Options, Failure> {
    let heap = rt.alloc();
    let mut o = defaults();
    let mut words = env::args(rt)?;
    // the program's name
    words.next();
    while let Some(word) = words.next() {
        take_word(heap, &mut o, word, &mut words)?;
    }
    if o.rows.is_some() && o.page.is_none() {
        return Err(Failure::Told(
            "--rows needs the page that they are of, as in --page 1 --rows 0-16",
        ));
    }
    Ok(o)
}
