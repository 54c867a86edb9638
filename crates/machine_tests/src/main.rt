// Runs the first stage's machine on jobs at the edges of what it does, and prints a line for each.
#![tactic(auto)]

use machine_case_list::report_all;
use tokens::Thin;

fn main(rt: HostRuntime) -> anyhow::Result<()> {
    report_all::<Thin>(&rt)
}
