use super::printed::printed;
use session::order::Order;
use std::fs;

const BANDS: [u64; 3] = [1, 7, 64];

const KEPT: [u64; 3] = [0, 1, 1000];

// A page of two by 67: the square stands on both sides of the end of a first band of 64 rows.
const ACROSS: &[u8] = b"0 63 moves 1 63 lines 1 66 lines 0 66 lines fills shows";

pub const TWO_PAGES: &[u8] =
    b"0 0 moves 1 0 lines 1 2 lines 0 2 lines fills shows 128 greys 2 2 moves 3 2 lines 3 3 lines 2 3 lines fills shows";

const AFTER: &[u8] = b"shows 0 0 moves 4 0 lines 4 2 lines 0 2 lines fills";

const FAULT: &[u8] =
    b"0 0 moves 2 0 lines 2 2 lines 0 2 lines fills shows 0 0 moves 4 0 lines 4 2 lines fills 256 greys shows";

// The number is left alone on the stack, and there is no subpath to draw on.
const NO_SUBPATH: &[u8] = b"0 { 1 1 adds drops } 3 swaps drops lines";

const ENDLESS: &[u8] = b"{ 1 drops } 100000 swaps repeats";

const SQUARE: &[u8] = b"1 1 moves 4 1 lines 4 3 lines 1 3 lines fills shows";

// A page of so many dots, with plenty of steps and nothing kept.
pub fn sized(width: u64, height: u64) -> Order {
    Order {
        steps: 1_000_000_000,
        width,
        height,
        kept: 0,
    }
}

fn steps(order: Order, steps: u64) -> Order {
    Order { steps, ..order }
}

// Says whether a job comes out the same at this band and amount kept; if not, shows what comes out.
fn compare(
    rt: &HostRuntime,
    source: &[u8],
    order: Order,
    band: u64,
    kept: u64,
    text: &[u8],
) -> anyhow::Result<()> {
    let again = printed(rt.alloc(), source, Order { kept, ..order }, band)?;
    if again.as_slice() == text {
        println!(rt; "band {band} keep {kept}: same")?;
    } else {
        println!(rt; "band {band} keep {kept}: differs")?;
        rt.write_all(again.as_slice())?;
    }
    Ok(())
}

// A job once, and then at each height of bands and amount kept.
fn report(rt: &HostRuntime, name: &str, source: &[u8], order: Order) -> anyhow::Result<()> {
    println!(rt; "{name}")?;
    let text = printed(rt.alloc(), source, order, 64)?;
    rt.write_all(text.as_slice())?;
    for band in &BANDS {
        for kept in &KEPT {
            compare(rt, source, order, *band, *kept, text.as_slice())?;
        }
    }
    println!(rt; "")?;
    Ok(())
}

fn report_file(rt: &HostRuntime, name: &str, file: &str, order: Order) -> anyhow::Result<()> {
    let source = fs::read(rt, file)?;
    report(rt, name, source.as_slice(), order)
}

pub fn report_jobs(rt: &HostRuntime) -> anyhow::Result<()> {
    report_file(rt, "an empty page", "empty.job", sized(4, 2))?;
    report_file(rt, "a square", "square.job", sized(6, 4))?;
    report_file(rt, "two triangles", "triangles.job", sized(6, 6))?;
    report_file(rt, "a hole", "hole.job", sized(6, 6))?;
    report(rt, "across bands of 64", ACROSS, sized(2, 67))?;
    report(rt, "two pages", TWO_PAGES, sized(3, 3))?;
    report(rt, "painted after the last page", AFTER, sized(4, 2))?;
    report_pictures(rt)?;
    report_endings(rt)
}

// Jobs with names, loops, clips and kept states.
fn report_pictures(rt: &HostRuntime) -> anyhow::Result<()> {
    report_file(rt, "half dots", "halves.job", sized(5, 3))?;
    report_file(rt, "a clip", "clip.job", sized(6, 6))?;
    report_file(rt, "boxes", "boxes.job", sized(9, 3))?;
    report_file(rt, "a chart", "chart.job", sized(64, 32))?;
    report_file(rt, "letters", "letters.job", sized(64, 32))?;
    report_file(rt, "a test page", "dots.job", sized(64, 32))
}

fn report_endings(rt: &HostRuntime) -> anyhow::Result<()> {
    report(rt, "a line with no subpath", b"1 2 lines", sized(4, 2))?;
    report(rt, "a name that means nothing", b"x", sized(4, 2))?;
    report(rt, "a fault in the second page", FAULT, sized(4, 2))?;
    report(rt, "a square, 15 steps", SQUARE, steps(sized(6, 4), 15))?;
    report(rt, "a square, 14 steps", SQUARE, steps(sized(6, 4), 14))?;
    report(rt, "a square, 13 steps", SQUARE, steps(sized(6, 4), 13))?;
    report(
        rt,
        "an empty page, 0 steps",
        b"shows",
        steps(sized(4, 2), 0),
    )?;
    report(rt, "two numbers, no subpath", NO_SUBPATH, sized(4, 2))?;
    report(rt, "1000 steps of many", ENDLESS, steps(sized(4, 2), 1000))?;
    report(rt, "no text", b"", sized(4, 2))?;
    report(rt, "a text that cannot be read", b"5a", sized(4, 2))
}
