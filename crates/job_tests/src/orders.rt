use super::jobs::sized;
use page_text::lines::refusal_line;
use session::order::Order;
use session::session::open;

const ONE_PAGE: &[u8] = b"shows";

// What the one token, the header, a path and clips take.
const NUMBERS: usize = 6150;

// Opens an order over so much memory, and says how that goes.
fn report(
    rt: &HostRuntime,
    name: &str,
    source: &[u8],
    order: Order,
    numbers: usize,
    bytes: usize,
) -> anyhow::Result<()> {
    let mut words = vec![in rt.alloc(); 0u64; numbers]?;
    let mut rows = vec![in rt.alloc(); 0u8; bytes]?;
    match open(source, order, words.as_mut_slice(), rows.as_mut_slice()) {
        Ok(_s) => println!(rt; "{name}: opened")?,
        Err(refused) => {
            let line = refusal_line(rt.alloc(), refused.why.number(), refused.why.place())?;
            print!(rt; "{name}: {line}")?;
        }
    }
    Ok(())
}

// An order over the memory that it asks for, or over that of a width of 4 where its own is out of range.
fn ordered(rt: &HostRuntime, name: &str, order: Order) -> anyhow::Result<()> {
    report(
        rt,
        name,
        ONE_PAGE,
        order,
        NUMBERS,
        64 * order.width.clamp(4, 8192) as usize,
    )
}

fn report_ranges(rt: &HostRuntime) -> anyhow::Result<()> {
    let page = sized(4, 2);
    ordered(rt, "width 1", sized(1, 2))?;
    ordered(rt, "width 8192", sized(8192, 2))?;
    ordered(rt, "height 65535", sized(4, 65535))?;
    ordered(rt, "steps 1000000000", page)?;
    ordered(rt, "steps 0", Order { steps: 0, ..page })?;
    ordered(rt, "width 0", sized(0, 2))?;
    ordered(rt, "width 8193", sized(8193, 2))?;
    ordered(rt, "height 0", sized(4, 0))?;
    ordered(rt, "height 65536", sized(4, 65536))?;
    ordered(
        rt,
        "steps 1000000001",
        Order {
            steps: 1_000_000_001,
            ..page
        },
    )
}

fn report_memory(rt: &HostRuntime) -> anyhow::Result<()> {
    let page = sized(4, 2);
    let one = Order { kept: 1, ..page };
    let all = Order {
        kept: u64::MAX,
        ..page
    };
    report(rt, "6150 numbers", ONE_PAGE, page, 6150, 256)?;
    report(rt, "6149 numbers", ONE_PAGE, page, 6149, 256)?;
    report(rt, "6150 numbers, 1 kept", ONE_PAGE, one, 6150, 256)?;
    report(rt, "6150 numbers, all kept", ONE_PAGE, all, 6150, 256)?;
    report(rt, "256 bytes", ONE_PAGE, page, 6150, 256)?;
    report(rt, "255 bytes", ONE_PAGE, page, 6150, 255)?;
    report(rt, "no memory", ONE_PAGE, page, 0, 0)?;
    report(rt, "no memory, width 0", ONE_PAGE, sized(0, 2), 0, 0)?;
    report(rt, "no memory, unreadable", b"5a", page, 0, 0)?;
    report(rt, "no memory, too large", b"2147483648", page, 0, 0)
}

pub fn report_orders(rt: &HostRuntime) -> anyhow::Result<()> {
    println!(rt; "orders")?;
    report_ranges(rt)?;
    report_memory(rt)
}
