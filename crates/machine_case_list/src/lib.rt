// Jobs at the edges of what a machine does, run at any stage; what it tells of each was written down by hand first.
//
//   name of the job: pages 1, things 2, grey 9, ending 3
//
// tried: what a stage is lent. report: a job is run, and its line printed.
#![tactic(auto)]

mod report;
mod tried;

use report::report;
use std::alloc::{AllocError, Global};
use tried::Tried;

const N: u64 = 0;

const D: u64 = 1;

const NAME: u64 = 2;

const QUOTED: u64 = 3;

const BODY: u64 = 4;

const MOVES: u64 = 11;

const LINES: u64 = 12;

const FILLS: u64 = 13;

const GREYS: u64 = 15;

const KEEPS: u64 = 18;

const SHOWS: u64 = 20;

// a page of one triangle, and a second page that is begun
const PAGE: [u64; 22] = [
    N, 0, N, 0, D, MOVES, N, 16, N, 0, D, LINES, N, 16, N, 16, D, LINES, D, FILLS, D, SHOWS,
];

const BEGUN: [u64; 10] = [N, 7, D, GREYS, N, 0, N, 0, D, MOVES];

// the two pages, and then
fn then<S: Tried>(rt: &HostRuntime, name: &str, rest: &[u64]) -> anyhow::Result<()> {
    let mut job = Vec::new(rt.alloc());
    job.extend_from_slice(&PAGE)?;
    job.extend_from_slice(&BEGUN)?;
    job.extend_from_slice(rest)?;
    report::<S>(rt, name, &job, 1000)
}

// so many times, and then
fn repeated(heap: Global, many: u32, part: &[u64], rest: &[u64]) -> Result<Vec<u64>, AllocError> {
    let mut job = Vec::new(heap);
    for _i in 0..many {
        job.extend_from_slice(part)?;
    }
    job.extend_from_slice(rest)?;
    Ok(job)
}

fn operands<S: Tried>(rt: &HostRuntime) -> anyhow::Result<()> {
    then::<S>(rt, "moves with one number", &[N, 5, D, MOVES])?;
    then::<S>(rt, "greys with nothing", &[D, GREYS])?;
    then::<S>(rt, "moves with one quoted name", &[QUOTED, 0, D, MOVES])?;
    then::<S>(
        rt,
        "moves with a number over a body",
        &[BODY, 2, D, SHOWS, N, 5, D, MOVES],
    )?;
    then::<S>(rt, "greys with a body", &[BODY, 0, D, GREYS])?;
    then::<S>(rt, "a name", &[NAME, 3, D, SHOWS])
}

fn ranges<S: Tried>(rt: &HostRuntime) -> anyhow::Result<()> {
    then::<S>(rt, "grey 255", &[N, 255, D, GREYS, D, FILLS])?;
    then::<S>(rt, "grey 256", &[N, 256, D, GREYS, D, FILLS])?;
    then::<S>(
        rt,
        "a line as far as can be",
        &[N, 1048575, N, 1048575, D, LINES],
    )?;
    then::<S>(rt, "a line too far", &[N, 0, N, 1048576, D, LINES])?;
    then::<S>(rt, "a move too far", &[N, 1048576, N, 0, D, MOVES])
}

fn paths<S: Tried>(rt: &HostRuntime) -> anyhow::Result<()> {
    then::<S>(rt, "lines after shows", &[D, SHOWS, N, 1, N, 1, D, LINES])?;
    then::<S>(
        rt,
        "lines too far after shows",
        &[D, SHOWS, N, 2000000, N, 1, D, LINES],
    )?;
    then::<S>(
        rt,
        "lines with one number after shows",
        &[D, SHOWS, N, 1, D, LINES],
    )?;
    then::<S>(rt, "lines after fills", &[D, FILLS, N, 1, N, 1, D, LINES])?;
    then::<S>(rt, "fills without a path", &[D, SHOWS, D, FILLS, D, SHOWS])
}

fn other_tokens<S: Tried>(rt: &HostRuntime) -> anyhow::Result<()> {
    then::<S>(rt, "a body that is not run", &[BODY, 2, D, KEEPS, D, SHOWS])?;
    then::<S>(rt, "a body cut short", &[BODY, 9, D, SHOWS])?;
    then::<S>(rt, S::KEEPING, &[D, KEEPS, D, SHOWS])?;
    then::<S>(rt, "an operator that there is not", &[D, 21, D, SHOWS])?;
    then::<S>(rt, "a kind that there is not", &[9, 0, D, SHOWS])?;
    then::<S>(rt, "half a token", &[D])
}

fn step_counts<S: Tried>(rt: &HostRuntime) -> anyhow::Result<()> {
    report::<S>(rt, "nothing, 0 steps", &[], 0)?;
    report::<S>(rt, "nothing, 1 step", &[], 1)?;
    report::<S>(rt, "a page, 10 steps", &PAGE, 10)?;
    report::<S>(rt, "a page, 11 steps", &PAGE, 11)?;
    report::<S>(rt, "a page, 12 steps", &PAGE, 12)?;
    report::<S>(rt, "a page, 13 steps", &PAGE, 13)?;
    report::<S>(rt, "a fault, 1 step", &[N, 1, NAME, 0], 1)?;
    report::<S>(rt, "a fault, 2 steps", &[N, 1, NAME, 0], 2)
}

fn stack_limits<S: Tried>(rt: &HostRuntime) -> anyhow::Result<()> {
    let full = repeated(rt.alloc(), 256, &[N, 1], &[D, SHOWS])?;
    report::<S>(rt, "256 on the stack", &full, 1000)?;
    let over = repeated(rt.alloc(), 257, &[N, 1], &[D, SHOWS])?;
    report::<S>(rt, "257 on the stack", &over, 1000)?;
    let body = repeated(rt.alloc(), 256, &[QUOTED, 1], &[BODY, 0, D, SHOWS])?;
    report::<S>(rt, "a body over 256 on the stack", &body, 1000)
}

fn point_limits<S: Tried>(rt: &HostRuntime) -> anyhow::Result<()> {
    let line = [N, 3, N, 4, D, LINES];
    let start = [N, 3, N, 4, D, MOVES];
    let mut job = repeated(rt.alloc(), 1, &start, &[])?;
    let lines = repeated(rt.alloc(), 1023, &line, &[])?;
    job.extend_from_slice(&lines)?;
    job.extend_from_slice(&[D, FILLS, D, SHOWS])?;
    report::<S>(rt, "1024 points, by lines", &job, 5000)?;
    let mut job = repeated(rt.alloc(), 1, &start, &lines)?;
    job.extend_from_slice(&[N, 3, N, 4, D, LINES, D, FILLS, D, SHOWS])?;
    report::<S>(rt, "1025 points, by lines", &job, 5000)?;
    let many = repeated(rt.alloc(), 1024, &start, &[D, FILLS, D, SHOWS])?;
    report::<S>(rt, "1024 points, by moves", &many, 5000)?;
    let more = repeated(rt.alloc(), 1025, &start, &[D, FILLS, D, SHOWS])?;
    report::<S>(rt, "1025 points, by moves", &more, 5000)?;
    let far = repeated(rt.alloc(), 1024, &start, &[N, 1048576, N, 0, D, LINES])?;
    report::<S>(rt, "1024 points and one too far", &far, 5000)
}

// All jobs, in the order of the output.
pub fn report_all<S: Tried>(rt: &HostRuntime) -> anyhow::Result<()> {
    operands::<S>(rt)?;
    ranges::<S>(rt)?;
    paths::<S>(rt)?;
    other_tokens::<S>(rt)?;
    step_counts::<S>(rt)?;
    stack_limits::<S>(rt)?;
    point_limits::<S>(rt)
}
