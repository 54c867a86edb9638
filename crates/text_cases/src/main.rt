// Runs the first stage's reader on texts at its limits and next to them, and prints a line for each: how many tokens it has, or by which number and at which place it is refused.
#![tactic(auto)]

use std::io;
use text_case_list::report_all;
use tokens::Thin;

fn main(rt: HostRuntime) -> io::Result<()> {
    report_all::<Thin>(&rt)
}
