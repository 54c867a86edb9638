// Which dots of a band a path covers, exactly, and grey in those dots.
//
// In: a thing, which is a stored path, stored clips and a grey, and a canvas, which is a band of rows in lent
// bytes, one byte a dot. Out: the same bytes with grey in each dot whose middle lies in the path and in every clip.
//
//     edge      where an edge crosses the middle of a row: the first dot that has its middle at or past it
//     crossing  one bit is changed there, for each edge of the path
//     coverage  parities make of these bits the dots that the path covers, cut by each clip's
//     levels    rows above and below the path or one of its clips are left alone
//     band      row by row, into the part of the bytes that is that row
//
//     bytes | row first | row first + 1 | .. | count rows of width bytes each | left alone |
//
// Two rows of bits, of `WORDS` words each, stand on the call stack.
#![tactic(auto)]

pub mod band;
mod coverage;
mod crossing;
mod edge;
pub mod laws;
mod levels;
pub mod thing;

// Words for the bits of the widest row, of 8,192 dots.
const WORDS: usize = 128;
