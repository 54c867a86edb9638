use page_text::lines::{last_line, refusal_line};
use page_text::page::{Missing, Rows, rows_between};
use page_text::row::push_row;
use session::order::Order;
use session::question::{Question, Reply};
use session::session::{Session, open};
use std::alloc::{AllocError, Global};

// Room for the rows of a page of these tests, and for its bytes of 64 rows.
pub const ROOM: usize = 4096;

// Rows of a page as text, or why they are not there.
pub fn push_rows(
    text: &mut Vec<u8>,
    heap: Global,
    s: &mut Session<'_>,
    rows: Rows,
    band: u64,
    width: u64,
) -> Result<(), AllocError> {
    let mut dots = [0u8; ROOM];
    let wide = width.clamp(1, 64) as usize;
    match rows_between(s, rows, band, wide, &mut dots) {
        Ok(()) => {
            let count = rows.to.saturating_sub(rows.from).min(ROOM as u64) as usize;
            let size = (count * wide).min(ROOM);
            for row in dots[0..size].chunks(wide) {
                push_row(text, row)?;
            }
        }
        Err(Missing::NoRoom) => text.extend_from_slice(b"no room\n")?,
        Err(Missing::Unanswered(why)) => {
            push_line(text, refusal_line(heap, why.number(), why.place())?)?;
        }
    }
    Ok(())
}

fn push_line(text: &mut Vec<u8>, line: String) -> Result<(), AllocError> {
    text.extend_from_slice(line.as_bytes())
}

// All pages, an empty line between them, and how the job ends.
fn push_pages(
    text: &mut Vec<u8>,
    heap: Global,
    s: &mut Session<'_>,
    order: Order,
    band: u64,
) -> Result<(), AllocError> {
    let Reply::Ended { pages, ending } = s.ask(Question::End) else {
        return Ok(());
    };
    for page in 0..pages as u64 {
        if page > 0 {
            text.extend_from_slice(b"\n")?;
        }
        let rows = Rows {
            page,
            from: 0,
            to: order.height,
        };
        push_rows(text, heap, s, rows, band, order.width)?;
    }
    push_line(text, last_line(heap, pages, ending)?)
}

// What a job prints, or by what it is refused, in bands of so many rows.
pub fn printed(
    heap: Global,
    source: &[u8],
    order: Order,
    band: u64,
) -> Result<Vec<u8>, AllocError> {
    let mut text = Vec::new(heap);
    let mut words = [0u64; 16384];
    let mut bytes = [0u8; ROOM];
    match open(source, order, &mut words, &mut bytes) {
        Ok(mut s) => push_pages(&mut text, heap, &mut s, order, band)?,
        Err(refused) => {
            let line = refusal_line(heap, refused.why.number(), refused.why.place())?;
            push_line(&mut text, line)?;
        }
    }
    Ok(text)
}
