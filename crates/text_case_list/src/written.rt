use super::report::report;
use std::io;
use tokens::Stage;

// Texts that cannot be seen whole on a line, by name.
static NAMED: [(&str, &str); 22] = [
    ("nothing", ""),
    ("spaces", "   "),
    ("ends of lines", "\n\n \n"),
    ("a remark", "% moves {"),
    ("a remark and its end of line", "% moves {\n"),
    ("an empty remark", "%"),
    ("an empty remark and its end of line", "%\n"),
    ("a number behind a remark", "%5\n5"),
    ("a tab behind a number", "5\t5"),
    ("a tab behind a space", "5 \t"),
    ("a carriage return behind a number", "5\r\n"),
    ("a carriage return behind a space", "5 \r\n"),
    ("a tab and a carriage return in a remark", "%\t\r\n5"),
    ("a remark goes on behind a carriage return", "%\r5 5 A"),
    ("a stroke before an end of line", "/\na"),
    ("a zero byte behind a word", "a\0"),
    ("a zero byte in a remark", "%\0\n5"),
    ("a body around a remark", "{%\n}"),
    ("a body left open in a remark", "{ % }\n"),
    ("a body left open before a space", "{ "),
    ("a letter with an accent", "\u{e9}"),
    ("a letter with an accent in a remark", "%\u{e9}"),
];

// Texts that are their own names.
static SEEN: [&str; 95] = [
    // strokes, hyphens, per cent signs and bytes that cannot stand
    "%%5",
    "5 %x",
    "/",
    "/ a",
    "/{}",
    "{/}",
    "/5",
    "//a",
    "/%",
    "5 /",
    "/a/b",
    "/-",
    "/a5",
    "a/b",
    "5/a",
    "-5",
    "-",
    "--",
    "a-b",
    "5a",
    "5-",
    "a5",
    "5%",
    "a%x",
    "/a%x",
    "}%x",
    "{ }%x",
    "{%}",
    "5{a}b",
    "{/a}",
    "/a{5}",
    "A",
    "aB",
    "5.5",
    "+5",
    "5 ? A",
    // numbers
    "0",
    "00",
    "007",
    "2147483647",
    "2147483648",
    "02147483647",
    "02147483648",
    "9999999999",
    "21474836480",
    "4294967295",
    "4294967296",
    "4294967297",
    "18446744073709551615",
    "18446744073709551616",
    "18446744073709551617",
    "5 2147483648",
    "2147483647{2147483648}",
    // braces, and what is refused by 1 although something before it is above a limit
    "{}",
    "{}{}",
    "{{}{5}}",
    "}",
    "{ } }",
    "}{",
    "5 }",
    "{",
    "{{}",
    "{ ?",
    "} ?",
    "2147483648 ?",
    "2147483648 {",
    "adds A",
    "adds }",
    "2147483648 adds",
    "adds 2147483648",
    "5 adds 2147483648",
    // words and short jobs
    "/adds adds",
    "1 2 moves adds",
    "{ 5 { back } }",
    "moves{lines}",
    "shows shows",
    "move",
    "moves-",
    "-moves",
    "movesmoves",
    "mov es",
    "Moves",
    "moves5",
    "is",
    "is-",
    "is-les",
    "clips",
    "clips by",
    "x",
    "1 2 lines",
    "1 1 moves 4 1 lines 4 3 lines 1 3 lines fills shows",
    "8 scales 2 1 moves 7 1 lines",
    "/box { copies 0 moves } defines",
    "0 { 1 1 adds drops } 3 swaps drops lines",
    "{ 1 drops } 100000 swaps repeats",
];

fn report_seen<S: Stage>(rt: &HostRuntime) -> io::Result<()> {
    for source in &SEEN {
        report::<S>(rt, source, source.as_bytes())?;
    }
    Ok(())
}

pub fn report_written<S: Stage>(rt: &HostRuntime) -> io::Result<()> {
    for (name, source) in &NAMED {
        report::<S>(rt, name, source.as_bytes())?;
    }
    report_seen::<S>(rt)
}
