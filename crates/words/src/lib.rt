// What the words of a text mean: which operator a word is, which number a name has, which token a lexeme is.
//
//   lexeme ──meaning──> token, or above a limit
//               ├─ operators: the 21 words of the language; the stage (crate tokens) says which can be done
//               └─ names: a table of at most 256 words, numbered as they come
//
// The table holds references into the text, in an array that the caller has on its call stack and lends:
//
//   Names: | word 0 | word 1 | ... | as it was .. |    256 places, the first `count` are used
#![tactic(auto)]

pub mod meaning;
pub mod names;
pub mod operators;
