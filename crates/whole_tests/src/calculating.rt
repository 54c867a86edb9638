// Arithmetic and the operand stack: a result is seen as the grey of a thing that is painted.
use super::texts::{report_many, report_texts};

static RESULTS: [&str; 16] = [
    "2 3 adds greys fills",
    "2147483646 1 adds 8421504 divides greys fills",
    "2147483647 1 adds greys fills",
    "7 3 takes greys fills",
    "7 7 takes greys fills",
    "3 7 takes greys fills",
    "15 17 multiplies greys fills",
    "46341 46340 multiplies 8421504 divides greys fills",
    "46341 46341 multiplies greys fills",
    "2147483647 2147483647 multiplies greys fills",
    "255 2 divides greys fills",
    "0 5 divides greys fills",
    "5 0 divides greys fills",
    "2 3 is-less greys fills",
    "3 3 is-less greys fills",
    "3 2 is-less greys fills",
];

static OPERANDS: [&str; 20] = [
    "adds",
    "1 adds",
    "{ } adds",
    "{ } 1 adds",
    "takes",
    "1 takes",
    "/x takes",
    "/x 1 takes",
    "multiplies",
    "1 multiplies",
    "{ } multiplies",
    "{ } 1 multiplies",
    "divides",
    "1 divides",
    "/x divides",
    "/x 0 divides",
    "is-less",
    "1 is-less",
    "{ } is-less",
    "{ } 1 is-less",
];

static STACK: [&str; 13] = [
    "9 copies adds greys fills",
    "/x copies adds",
    "/x copies drops drops greys",
    "copies",
    "5 6 drops greys fills",
    "{ } drops 7 greys fills",
    "drops",
    "2 7 swaps takes greys fills",
    "{ } 3 swaps drops greys fills",
    "1 2 3 swaps drops takes greys fills",
    "swaps",
    "1 swaps",
    "0 { 1 1 adds drops } 3 swaps drops lines",
];

pub fn report_calculating(rt: &HostRuntime) -> anyhow::Result<()> {
    report_texts(rt, &RESULTS)?;
    report_texts(rt, &OPERANDS)?;
    report_texts(rt, &STACK)?;
    report_many(rt, 255, "3 ", "copies shows")?;
    report_many(rt, 256, "3 ", "copies shows")?;
    report_many(rt, 256, "3 ", "adds copies greys fills shows")?;
    report_many(rt, 256, "3 ", "swaps drops 4 greys fills shows")
}
