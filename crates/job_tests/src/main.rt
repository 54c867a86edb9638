// Prints jobs through the functions that the printing program uses, at several heights of bands and amounts kept, and
// says whether all come out the same; asks questions in odd orders; and opens orders at their limits and beyond.
#![tactic(auto)]

mod jobs;
mod orders;
mod printed;
mod questions;

use jobs::report_jobs;
use orders::report_orders;
use questions::report_questions;

fn run(rt: &HostRuntime) -> anyhow::Result<()> {
    report_jobs(rt)?;
    report_questions(rt)?;
    report_orders(rt)
}

fn main(rt: HostRuntime) -> anyhow::Result<()> {
    run(&rt)
}
