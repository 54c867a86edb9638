// Names, bodies and frames.
use super::texts::{report_many, report_run, report_texts};

static NAMES: [&str; 15] = [
    "/x 5 defines x greys fills",
    "/x 5 defines /x 6 defines x greys fills",
    "/x 5 defines /y 6 defines x y adds greys fills",
    "/x 5 defines /y x defines /x 7 defines y greys fills",
    "/x { 3 greys fills } defines x x",
    "/x /y defines x 5 defines y greys fills",
    "/f { /f { 8 greys fills } defines 4 greys fills } defines f f",
    "{ /x 9 defines } 1 swaps repeats x greys fills",
    "x",
    "/x 1 defines y",
    "defines",
    "/x defines",
    "1 /x defines",
    "{ } 5 defines",
    "5 6 defines",
];

static BODIES: [&str; 16] = [
    "0 { 5 greys fills } repeats",
    "0 3 { 1 adds } repeats greys fills",
    "2 { 3 { fills } repeats } repeats",
    "repeats",
    "{ } repeats",
    "5 repeats",
    "/x repeats",
    "{ } { } repeats",
    "/x { } repeats",
    "1 { 5 greys fills } when",
    "7 { 5 greys fills } when fills",
    "0 { 5 greys fills } when",
    "when",
    "{ } when",
    "5 when",
    "{ } { } when",
];

// as many frames as there may be, and one more
static DEEP: [&str; 5] = [
    "/f { f } defines f",
    "/n 0 defines /f { /n n 1 adds defines n 31 is-less { f } when } defines f 5 greys fills",
    "/n 0 defines /f { /n n 1 adds defines n 32 is-less { f } when } defines f 5 greys fills",
    "/n 0 defines /f { /n n 1 adds defines n 31 is-less { f } repeats } defines f 5 greys fills",
    "/n 0 defines /f { /n n 1 adds defines n 32 is-less { f } repeats } defines f 5 greys fills",
];

const BOX: &str =
    "/box { copies 0 moves copies 2 adds 0 lines copies 2 adds 2 lines copies 2 lines drops fills } defines 0 3 { copies box 3 adds } repeats drops shows";

static TIMED: [(&str, u32); 8] = [
    ("3 { 1 drops } repeats", 14),
    ("3 { 1 drops } repeats", 13),
    (BOX, 86),
    (BOX, 85),
    (BOX, 84),
    ("{ 1 drops } 100000 swaps repeats", 1000),
    ("{ 1 drops } 100000 swaps repeats", 300005),
    ("{ 1 drops } 100000 swaps repeats", 300006),
];

static LETTERS: [&str; 16] = [
    "a", "b", "c", "d", "e", "f", "g", "h", "i", "j", "k", "l", "m", "n", "o", "p",
];

// every name that a text may have means 1
fn report_all_names(rt: &HostRuntime) -> anyhow::Result<()> {
    let mut source = String::new(rt.alloc());
    for first in &LETTERS {
        for second in &LETTERS {
            source.push_str("/")?;
            source.push_str(first)?;
            source.push_str(second)?;
            source.push_str(" 1 defines ")?;
        }
    }
    source.push_str("aa ap adds pp adds greys fills")?;
    report_run(rt, "256 names", source.as_bytes(), 1000)
}

pub fn report_calling(rt: &HostRuntime) -> anyhow::Result<()> {
    report_texts(rt, &NAMES)?;
    report_texts(rt, &BODIES)?;
    report_texts(rt, &DEEP)?;
    for (source, steps) in &TIMED {
        print!(rt; "{steps} steps of ")?;
        report_run(rt, source, source.as_bytes(), *steps)?;
    }
    report_all_names(rt)?;
    report_many(rt, 254, "3 ", "/x 1 defines x x shows")?;
    report_many(rt, 254, "3 ", "/x 1 defines x x x shows")
}
