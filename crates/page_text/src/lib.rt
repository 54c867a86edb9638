// The pages of a job as a reader of files and terminals has them: rows of a page, a row as characters, a few lines.
//
// In: an open session, and which rows of which page, in bands of how many rows. Out: the rows one after the other, and
// where something is missing, what. `rows_between` asks for a band, moves it from the session's bytes to its place, and
// asks for the next:
//
//     session's bytes | band      | as it was                 |
//                        copied
//     out             | rows from .. y | band | as it was     |
//                     0                at     at + n * width
//
// What comes out does not depend on the bands' height: it is the written machine's page. A row becomes `#` for grey 0,
// `.` for 255 and `+` for any other, and an end of line. `lines` has the few lines around pages.
//
// page: rows of a page, band by band. row: a row as characters. lines: the head of a picture file, a refusal, the last
// line. laws: bands of any heights make a page.
#![tactic(auto)]

pub mod laws;
pub mod lines;
pub mod page;
pub mod row;
