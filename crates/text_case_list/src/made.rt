use super::report::report;
use std::alloc::{AllocError, Global};
use std::io;
use tokens::Stage;

// A stretch of a text that is made.
enum Stretch {
    Once(&'static str),
    Many(u32, &'static str),
    // names of two letters, each with its space, from aa, which is 0, to pp, which is 255
    Plain(u8, u8),
    Quoted(u8, u8),
}

use Stretch::{Many, Once, Plain, Quoted};

// One byte less than the longest text that is allowed has.
const SPACES: usize = 16777214;

// Texts that are made, by name, in short tables: one of them all is above the checker's limit of steps.
static WORDS: [(&str, &[Stretch]); 17] = [
    ("a word of 31 letters", &[Many(31, "a")]),
    ("a word of 32 letters", &[Many(32, "a")]),
    ("a word of 10000 letters", &[Many(10000, "a")]),
    ("a quoted word of 31 letters", &[Once("/"), Many(31, "a")]),
    ("a quoted word of 32 letters", &[Once("/"), Many(32, "a")]),
    (
        "a quoted word of 10000 letters",
        &[Once("/"), Many(10000, "a")],
    ),
    (
        "a word of 32 letters behind a number",
        &[Once("5 "), Many(32, "a")],
    ),
    (
        "a quoted word of 32 letters behind a number",
        &[Once("5 /"), Many(32, "a")],
    ),
    (
        "a word of 31 letters before a digit",
        &[Many(31, "a"), Once("5")],
    ),
    (
        "a word of 32 letters before a digit",
        &[Many(32, "a"), Once("5")],
    ),
    (
        "a quoted word of 31 letters before a digit",
        &[Once("/"), Many(31, "a"), Once("5")],
    ),
    (
        "a word of 31 letters before a body",
        &[Many(31, "a"), Once("{}")],
    ),
    (
        "a word of 32 letters in a body left open",
        &[Once("{"), Many(32, "a")],
    ),
    (
        "a word of 32 letters in a remark",
        &[Once("%"), Many(32, "a")],
    ),
    ("a word of 31 hyphens", &[Many(31, "-")]),
    ("a word of 32 hyphens", &[Many(32, "-")]),
    (
        "a remark of 100000 letters",
        &[Once("%"), Many(100000, "a")],
    ),
];

static NUMBERS: [(&str, &[Stretch]); 8] = [
    ("a number of 400 ones", &[Many(400, "1")]),
    ("a number of 10000 nines", &[Many(10000, "9")]),
    ("1 and 400 zeros", &[Once("1"), Many(400, "0")]),
    ("400 zeros", &[Many(400, "0")]),
    ("400 zeros and 7", &[Many(400, "0"), Once("7")]),
    (
        "400 zeros and 2147483647",
        &[Many(400, "0"), Once("2147483647")],
    ),
    (
        "400 zeros and 2147483648",
        &[Many(400, "0"), Once("2147483648")],
    ),
    ("400 ones and a letter", &[Many(400, "1"), Once("a")]),
];

static BRACES: [(&str, &[Stretch]); 10] = [
    ("braces 32 deep", &[Many(32, "{"), Many(32, "}")]),
    ("braces 33 deep", &[Many(33, "{"), Many(33, "}")]),
    (
        "braces 32 deep around a number",
        &[Many(32, "{"), Once("5"), Many(32, "}")],
    ),
    (
        "braces 32 deep, twice",
        &[Many(32, "{"), Many(32, "}"), Many(32, "{"), Many(32, "}")],
    ),
    (
        "braces 33 deep behind a body",
        &[Once("{} "), Many(33, "{"), Many(33, "}")],
    ),
    ("33 braces left open", &[Many(33, "{")]),
    ("100000 braces left open", &[Many(100000, "{")]),
    (
        "100000 braces open and closed",
        &[Many(100000, "{"), Many(100000, "}")],
    ),
    ("100000 braces that close nothing", &[Many(100000, "}")]),
    (
        "100000 braces open and 100001 closed",
        &[Many(100000, "{"), Many(100001, "}")],
    ),
];

static TOKENS: [(&str, &[Stretch]); 17] = [
    ("65536 numbers", &[Many(65536, "0 ")]),
    ("65537 numbers", &[Many(65537, "0 ")]),
    ("65536 braces", &[Many(32768, "{}")]),
    ("65538 braces", &[Many(32769, "{}")]),
    ("a number and 65536 braces", &[Once("0"), Many(32768, "{}")]),
    ("65535 numbers and a body", &[Many(65535, "0 "), Once("{}")]),
    ("65534 numbers and a body", &[Many(65534, "0 "), Once("{}")]),
    ("65536 numbers and a name", &[Many(65536, "0 "), Once("a")]),
    (
        "65536 numbers and a quoted name",
        &[Many(65536, "0 "), Once("/a")],
    ),
    (
        "65536 numbers and an operator",
        &[Many(65536, "0 "), Once("shows")],
    ),
    (
        "65536 numbers and a remark",
        &[Many(65536, "0 "), Once("% 0")],
    ),
    (
        "65536 numbers and a byte that cannot stand",
        &[Many(65536, "0 "), Once("?")],
    ),
    (
        "65537 numbers and a brace left open",
        &[Many(65537, "0 "), Once("{")],
    ),
    ("65536 operators", &[Many(65536, "shows ")]),
    ("65537 operators", &[Many(65537, "shows ")]),
    ("65536 uses of a name", &[Many(65536, "a ")]),
    ("65537 uses of a name", &[Many(65537, "a ")]),
];

static NAMES: [(&str, &[Stretch]); 19] = [
    ("256 names", &[Plain(0, 255)]),
    ("257 names", &[Plain(0, 255), Once("qa")]),
    ("256 quoted names", &[Quoted(0, 255)]),
    ("257 quoted names", &[Quoted(0, 255), Once("/qa")]),
    ("257 uses of one name", &[Many(257, "aa ")]),
    ("256 names, then quoted", &[Plain(0, 255), Quoted(0, 255)]),
    (
        "256 quoted names, then plain",
        &[Quoted(0, 255), Plain(0, 255)],
    ),
    (
        "128 names and 128 quoted",
        &[Plain(0, 127), Quoted(128, 255)],
    ),
    (
        "128 names, 128 quoted and one more",
        &[Plain(0, 127), Quoted(128, 255), Once("qa")],
    ),
    ("256 names and an operator", &[Plain(0, 255), Once("moves")]),
    (
        "256 names and an operator quoted",
        &[Plain(0, 255), Once("/moves")],
    ),
    (
        "255 names and an operator quoted",
        &[Plain(0, 254), Once("/adds")],
    ),
    (
        "255 names, an operator quoted and one more",
        &[Plain(0, 254), Once("/adds qa")],
    ),
    (
        "256 names and the first again",
        &[Plain(0, 255), Once("aa")],
    ),
    ("256 names and the last again", &[Plain(0, 255), Once("pp")]),
    ("256 names and a shorter one", &[Plain(0, 255), Once("a")]),
    ("256 names and a longer one", &[Plain(0, 255), Once("aaa")]),
    (
        "257 names and a byte that cannot stand",
        &[Plain(0, 255), Once("qa ?")],
    ),
    (
        "257 names in a body",
        &[Once("{"), Plain(0, 255), Once("qa}")],
    ),
];

// What stands behind nearly as many spaces as a text may have bytes.
static ENDS: [(&str, &str); 8] = [
    ("16777214 spaces and a number", "5"),
    ("16777215 spaces", " "),
    ("16777215 spaces and a space", "  "),
    ("16777215 spaces and a number", " 5"),
    ("16777215 spaces and a byte that cannot stand", " ?"),
    ("16777215 spaces and a brace that closes nothing", " }"),
    ("16777215 spaces and a brace left open", " {"),
    ("16777215 spaces and a stroke", " /"),
];

fn put_names(source: &mut Vec<u8>, stroke: &[u8], first: u8, last: u8) -> Result<(), AllocError> {
    for k in first..=last {
        source.extend_from_slice(stroke)?;
        source.extend_from_slice(&[b'a' + k / 16, b'a' + k % 16, b' '])?;
    }
    Ok(())
}

fn put_many(source: &mut Vec<u8>, unit: &str, times: u32) -> Result<(), AllocError> {
    for _ in 0..times {
        source.extend_from_slice(unit.as_bytes())?;
    }
    Ok(())
}

fn put(source: &mut Vec<u8>, stretch: &Stretch) -> Result<(), AllocError> {
    match stretch {
        Once(unit) => put_many(source, unit, 1),
        Many(times, unit) => put_many(source, unit, *times),
        Plain(first, last) => put_names(source, b"", *first, *last),
        Quoted(first, last) => put_names(source, b"/", *first, *last),
    }
}

fn make(heap: Global, stretches: &[Stretch]) -> Result<Vec<u8>, AllocError> {
    let mut source = Vec::new(heap);
    for stretch in stretches {
        put(&mut source, stretch)?;
    }
    Ok(source)
}

fn report_each<S: Stage>(rt: &HostRuntime, cases: &[(&str, &[Stretch])]) -> io::Result<()> {
    for (name, stretches) in cases {
        let source = make(rt.alloc(), stretches)?;
        report::<S>(rt, name, source.as_slice())?;
    }
    Ok(())
}

pub fn report_made<S: Stage>(rt: &HostRuntime) -> io::Result<()> {
    report_each::<S>(rt, &WORDS)?;
    report_each::<S>(rt, &NUMBERS)?;
    report_each::<S>(rt, &BRACES)?;
    report_each::<S>(rt, &TOKENS)?;
    report_each::<S>(rt, &NAMES)
}

// One text for all, since it is long.
pub fn report_vast<S: Stage>(rt: &HostRuntime) -> io::Result<()> {
    let mut source = vec![in rt.alloc(); b' '; SPACES]?;
    for (name, end) in &ENDS {
        source.extend_from_slice(end.as_bytes())?;
        report::<S>(rt, name, source.as_slice())?;
        source.truncate(SPACES);
    }
    Ok(())
}
