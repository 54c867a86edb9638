// Paths in lent words: who builds one, and who reads one.
//
// In: points, in sixteenths of a dot, below 2^24 each. Out: words that anyone may keep, cut or read
// back, iterators that read them, and the extent of a path. Any words whatsoever are some path: a count
// that is larger than what is there is cut, numbers are cut to 24 bits, a last odd word is no point.
//
//     a path     | n | x y x y .. (n points) | n | x y .. | ..
//     clips      | n | a path of n words     | n | a path | ..
//
//     Clips  ->  Subpaths  ->  Points  ->  Corner          each gives the next, from words that are lent
//
// A path that is being built, and what its numbers stand for:
//
//     | finished subpaths | n | x y .. the open one | spare words |
//     0                 start                     used
//
// Nobody else indexes these words.
#![tactic(auto)]

pub mod builder;
pub mod corner;
pub mod extent;
pub mod stored;
