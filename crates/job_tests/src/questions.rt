use super::jobs::{TWO_PAGES, sized};
use super::printed::{ROOM, push_rows};
use anyhow::anyhow;
use page_text::lines::last_line;
use page_text::page::Rows;
use session::question::{Question, Reply};
use session::session::{Session, open};

// Rows of a page, asked for in bands of two, as text or as the refusal.
fn ask(rt: &HostRuntime, s: &mut Session<'_>, page: u64, from: u64, to: u64) -> anyhow::Result<()> {
    println!(rt; "page {page} rows {from}-{to}")?;
    let mut text = Vec::new(rt.alloc());
    push_rows(&mut text, rt.alloc(), s, Rows { page, from, to }, 2, 3)?;
    rt.write_all(text.as_slice())?;
    Ok(())
}

// The last page first, again, the last row, no rows, what there is not, and rows again.
fn ask_all(rt: &HostRuntime, s: &mut Session<'_>) -> anyhow::Result<()> {
    ask(rt, s, 1, 0, 3)?;
    ask(rt, s, 0, 0, 3)?;
    ask(rt, s, 0, 0, 3)?;
    ask(rt, s, 1, 2, 3)?;
    ask(rt, s, 0, 1, 1)?;
    ask(rt, s, 0, 3, 3)?;
    ask(rt, s, 0, 2, 4)?;
    ask(rt, s, 0, 4, 4)?;
    ask(rt, s, 2, 0, 0)?;
    ask(rt, s, 2, 0, 9)?;
    ask(rt, s, 1, 1, 3)
}

pub fn report_questions(rt: &HostRuntime) -> anyhow::Result<()> {
    println!(rt; "questions")?;
    let mut words = [0u64; 8192];
    let mut bytes = [0u8; ROOM];
    let Ok(mut s) = open(TWO_PAGES, sized(3, 3), &mut words, &mut bytes) else {
        return Err(anyhow!("the job of the questions is refused"));
    };
    ask_all(rt, &mut s)?;
    if let Reply::Ended { pages, ending } = s.ask(Question::End) {
        let line = last_line(rt.alloc(), pages, ending)?;
        rt.write_all(line.as_bytes())?;
    }
    println!(rt; "")?;
    Ok(())
}
