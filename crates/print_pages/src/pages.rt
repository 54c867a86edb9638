ghost use Rattle.std.specs.Prelude.{◌≤◌};

use super::options::{Format, Options, Span};
use failure::Failure;
use page_text::lines::{last_line, pgm_head, refusal_line};
use page_text::page::{Missing, Rows, rows_between};
use page_text::row::push_row;
use session::question::{Question, Reason, Reply};
use session::session::Session;

// About how many bytes of rows are had at a time.
const CHUNK: usize = 1_048_576;

// A band of a page that was shown is never refused: that is proved of the session.
const NO_ROWS: &str = "rows of a shown page were refused: please report this";

// Says by which number and at which place a job or a question is refused.
pub fn print_refusal(rt: &HostRuntime, number: u8, place: usize) -> Result<(), Failure> {
    let line = refusal_line(rt.alloc(), number, place)?;
    rt.write_all(line.as_bytes())?;
    Ok(())
}

// Rows as they are, or each as a line of text.
fn print_rows(rt: &HostRuntime, rows: &[u8], width: usize, format: Format) -> Result<(), Failure> {
    if let Format::Pgm = format {
        rt.write_all(rows)?;
        return Ok(());
    }
    let mut text = Vec::new(rt.alloc());
    for row in rows.chunks(width.max(1)) {
        push_row(&mut text, row)?;
    }
    rt.write_all(text.as_slice())?;
    Ok(())
}

// How many rows make about a megabyte.
fn rows_at_once(width: usize) -> usize
    ensures { 1 ≤ result }
{
    (CHUNK / width.max(1)).max(1)
}

// Rows of a page, in chunks of as many rows as fit about a megabyte.
fn print_span(
    rt: &HostRuntime,
    s: &mut Session<'_>,
    rows: Rows,
    o: &Options,
) -> Result<(), Failure> {
    let width = o.order.width.clamp(1, 8192) as usize;
    let most = rows_at_once(width);
    let mut chunk = vec![in rt.alloc(); 0u8; CHUNK]?;
    for from in (rows.from..rows.to).step_by(most) {
        let n = (most as u64).min(rows.to - from);
        let part = Rows {
            from,
            to: from + n,
            ..rows
        };
        if rows_between(s, part, o.band, width, chunk.as_mut_slice()).is_err() {
            return Err(Failure::Told(NO_ROWS));
        }
        let dots = chunk.as_slice();
        let size = (n as usize).saturating_mul(width).min(dots.len());
        print_rows(rt, &dots[0..size], width, o.format)?;
    }
    Ok(())
}

// Rows of a page, with a head where the format has one.
fn print_page(
    rt: &HostRuntime,
    s: &mut Session<'_>,
    rows: Rows,
    o: &Options,
) -> Result<(), Failure> {
    if let Format::Pgm = o.format {
        let head = pgm_head(rt.alloc(), o.order.width, rows.to.saturating_sub(rows.from))?;
        rt.write_all(head.as_bytes())?;
    }
    print_span(rt, s, rows, o)
}

// So many whole pages one after the other, in text with an empty line between them.
fn print_each(
    rt: &HostRuntime,
    s: &mut Session<'_>,
    pages: u32,
    o: &Options,
) -> Result<(), Failure> {
    for page in 0..pages as u64 {
        if let Format::Text = o.format {
            if page > 0 {
                rt.write_all(b"\n")?;
            }
        }
        let rows = Rows {
            page,
            from: 0,
            to: o.order.height,
        };
        print_page(rt, s, rows, o)?;
    }
    Ok(())
}

// Why a page or rows of it are not printed, if they are not: nothing is printed of what is refused.
fn refused(s: &mut Session<'_>, rows: Rows, o: &Options) -> Option<Reason> {
    let last = Rows {
        from: rows.to,
        ..rows
    };
    match rows_between(s, last, o.band, 1, &mut []) {
        Err(Missing::Unanswered(reason)) => Some(reason),
        _ => None,
    }
}

fn print_end(rt: &HostRuntime, pages: u32, ending: u8, format: Format) -> Result<(), Failure> {
    let line = last_line(rt.alloc(), pages, ending)?;
    match format {
        Format::Text => rt.write_all(line.as_bytes())?,
        Format::Pgm => rt.stderr().write_all(line.as_bytes())?,
    }
    Ok(())
}

// The pages that are asked for, and how the job ends.
pub fn print_pages(rt: &HostRuntime, s: &mut Session<'_>, o: &Options) -> Result<(), Failure> {
    let Reply::Ended { pages, ending } = s.ask(Question::End) else {
        return Err(Failure::Told(NO_ROWS));
    };
    let Some(page) = o.page else {
        print_each(rt, s, pages, o)?;
        return print_end(rt, pages, ending, o.format);
    };
    let whole = Span {
        from: 0,
        to: o.order.height,
    };
    let Span { from, to } = o.rows.unwrap_or(whole);
    let rows = Rows { page, from, to };
    if let Some(reason) = refused(s, rows, o) {
        return print_refusal(rt, reason.number(), reason.place());
    }
    print_page(rt, s, rows, o)?;
    print_end(rt, pages, ending, o.format)
}
