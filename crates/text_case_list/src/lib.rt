// Texts at the reader's limits and next to them, read at any stage, with a line for each: how many tokens it has, or by
// which number and at which place it is refused.
//
//   name of the text: tokens 7
//   name of the text: refused 2 at 5
//
// written: texts as they stand. operators: each operator alone, in a body, quoted and misspelled. bytes: each byte in eight
// places. stored: texts stored into words that held sevens. made: texts too long to be written out.
#![tactic(auto)]

mod bytes;
mod made;
mod operators;
mod report;
mod stored;
mod written;

use bytes::report_bytes;
use made::{report_made, report_vast};
use operators::report_operators;
use std::io;
use stored::report_stored;
use tokens::Stage;
use written::report_written;

// All texts, in the order of the output that was worked out by hand.
pub fn report_all<S: Stage>(rt: &HostRuntime) -> io::Result<()> {
    report_written::<S>(rt)?;
    report_operators::<S>(rt)?;
    report_bytes::<S>(rt)?;
    report_stored::<S>(rt)?;
    report_made::<S>(rt)?;
    report_vast::<S>(rt)
}
