// Runs the whole machine on jobs at the edges of what it does, and prints a line for each; what it tells of each was written down by hand first (stdout).
#![tactic(auto)]

mod calculating;
mod calling;
mod graphics;
mod texts;

use calculating::report_calculating;
use calling::report_calling;
use graphics::report_graphics;
use machine_case_list::report_all;
use tokens::Whole;

fn main(rt: HostRuntime) -> anyhow::Result<()> {
    report_all::<Whole>(&rt)?;
    report_calculating(&rt)?;
    report_calling(&rt)?;
    report_graphics(&rt)
}
