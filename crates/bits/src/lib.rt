// A row of dots as bits, 64 to a word: dot x is bit x % 64 of word x / 64.
//
// In: dots at which something begins or ends. Out: the dots between, as bits, and then as bytes.
//
//     toggle      ..1......1.....     one bit for each place where what is inside changes
//     sweep       ..1111111......     each bit becomes the parity of the bits up to it
//     keep_common ..11100000......    and so it is cut by another row
//     paint       ..ggg...........    grey is written where a bit is set
//
//     | 0 0 0 | w w w w w | 0 0 0 | 0 0     the words that a row may have set are low..high, its span,
//             low       high     len   N    so a row costs what is set in it and not its width
//
// A `Row` is empty when it is made and again after `clear`.
#![tactic(auto)]

pub mod painting;
pub mod row;
