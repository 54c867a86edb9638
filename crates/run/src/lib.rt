// Runs: a machine driven to its end, and what comes of it.
//
// In: stored tokens, words for the path and the clips, a count of steps, and a sink. Out: how the
// job ended; and what the sink makes of everything that was painted and shown, in order. The
// written machine keeps all that, the code keeps none of it: each event is told to the sink once.
// A run is one of a stage, which says what operators can be done (crate tokens).
//
//     lent words                          on the call stack of `run_job`
//     tokens | shared, bodies are parts   values   | 256 of 24 bytes |   order  | 256 of 1 |
//     words  | path | spare |             meanings | 256 of 32 bytes |   kept   | 16 of 32 |
//     clips  | in force | spare |         frames   |  64 of 40 bytes |
//
// That is 17,664 bytes for these, whatever the job; nothing is allocated. The words of the path and
// of the clips are 0 after a run.
//
// drive: how a run goes, for any sink. job: a whole run of its own machine. count: the sink that
// counts pages. Painting a band and listing are other sinks of crates above.
#![tactic(auto)]

pub mod count;
pub mod drive;
pub mod job;
pub mod laws;
