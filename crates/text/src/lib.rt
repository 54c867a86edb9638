// A job's text: bytes become stored tokens, or are refused at the right byte.
//
//   bytes ──lexer──> lexemes ──check──> how many tokens, or a refusal     (no lent memory)
//                        └─────store──> words                             (after the checks)
//
// Three passes over one lexer (crate lexer; crate words says what its lexemes mean). `check` goes over the whole text twice: can it be read (refusal 1), then is
// it within the limits (refusal 2); its table of at most 256 names (words' `Names`) stands on the call stack, 4 KB.
// `store` writes the tokens at the front of the lent words, two words for each:
//
//   words: | kind number | kind number | 4 length | kind number ... | kind number |  as it was ...
//                                        a body     its length words
//
// A body is read by recursion over a depth that falls from 32, and is handed on as the part of the words
// that holds it: `tokens::next_token` gives the next token of any words whatever, and the words behind it.
// The meaning of a text is `read` of lexer's Reading.antt, at the operators that a stage can do: each function is written
// once, for any stage (crate tokens), and a caller names it, as in `count_tokens::<Whole>`.
#![tactic(auto)]

mod check;
pub mod laws;
pub mod refusal;
mod store;

pub use check::count_tokens;
pub use store::store_tokens;
