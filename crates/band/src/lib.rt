// A job run for a band: rows of one of its pages, painted as it goes, up to that page's end and no further.
//
// In: stored tokens, words for the path and the clips, bytes for the rows, one byte a dot, a count
// of steps, which page, and which of its rows. Out: whether the job shows that page in so many
// steps; if so its rows, and if not bytes of 0.
//
//     tokens | shared                                                  |
//     path   | the path that is being built | spare |                      0 after
//     clips  | in force | spare |                                          0 after
//     bytes  | row first | .. | count rows of width bytes | left alone |   all 0 if there is no such page
//
// The rows are white at first. What the job paints on pages before is passed over, and the run is
// left at the page's `shows`: a page that was shown stays, so the rest of the job has no say in it.
// Nothing of the job is held but what the run itself holds (crate run).
//
// sink: who takes the run's events for a band. page: a run with it.
#![tactic(auto)]

pub mod page;
pub mod sink;
