// Runs the reader of all operators on texts at its limits and next to them, and prints a line for each: how many tokens it has, or by which number and at which place it is refused.
#![tactic(auto)]

use std::io;
use text_case_list::report_all;
use tokens::Whole;

fn main(rt: HostRuntime) -> io::Result<()> {
    report_all::<Whole>(&rt)
}
