// A job is opened and asked: all that a printer does, over memory that is lent to it.
//
// In: a text, an order (steps, width, height, how many numbers may be kept), and two lent slices, of numbers and of
// bytes. `open` opens the job or refuses it by the first number of the list that applies; a refusal gives the slices
// back as they were. `ask` is then asked in any order and as often as one likes: how the job ends, or for a band of up
// to 64 rows of a page. Nothing of a session stands outside the two slices:
//
//     numbers | tokens | header 4 | path 3,072 | clips 3,072 | kept | never touched |
//     bytes   | 64 rows of width dots | never touched |
//
// The tokens stay as they are. The header has steps, width, height and the amount that may be kept. Path and clips are
// for a run, and zeros at rest. This stage keeps nothing yet: it runs the job again for each question, up to the page's
// end and no further. Rows stand at the front of the bytes; after a refusal all bytes are 0.
//
// `list_paints` opens nothing: it lists what a job paints (crate listing) and is done. It takes as many numbers as a
// session that keeps nothing, and uses them so; those that it used are 0 after:
//
//     numbers | tokens | path 3,072 | clips 3,072 | never touched |
//     bytes   | the listing, as far as it fits | never touched |
//
// order: what is ordered, and a refusal. question: questions and replies. layout: how much is asked for, and whether it is there.
// reply: an answer from the regions. session: `open`, which cuts lent memory once, and `ask`. paints: `list_paints`.
// laws: the main promise.
#![tactic(auto)]

pub mod laws;
mod layout;
pub mod order;
pub mod paints;
pub mod question;
mod reply;
pub mod session;
