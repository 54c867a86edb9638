// A list of what a job paints, for people who look for a fault in a chart.
//
// In: stored tokens, words for the path and the clips, bytes for the text, and a count of steps. Out: how long the
// listing is, and as much of it as fits, at the front of the bytes:
//
//     thing grey 0           a thing, in the order of painting, and its grey
//       subpath              its subpaths with their points, x and y in dots from the left and from the top,
//         point 1 1          and in sixteenths where there are any
//         point 4 3+8/16
//       clip                 the clips that it was painted under, the oldest first
//         subpath
//           point 0 0
//     shown as page 1        behind the things of a page; the first page is 1 here, and 0 in a question
//     thing grey 128
//     never printed          behind what was painted after the last page, if anything was
//
// The line of a page stands behind its things: while they are painted, nobody knows whether they will be shown.
//
//     path   | the path that is being built | spare |     0 after
//     clips  | in force | spare |                         0 after
//     bytes  | the text, as far as it fits | left alone |
//
// Text that does not fit is counted and not written, so a run with no bytes says how many are wanted.
//
// writer: text over lent bytes. lines: how it puts the lines of things and pages; all reading of stored paths is there.
// sink: who takes the run's events. things: a run with it.
#![tactic(auto)]

mod lines;
pub mod sink;
pub mod things;
mod writer;
