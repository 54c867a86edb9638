// The machine that a job runs on: its state, and what can be done to it. What a step of it is stands in crate operators.
//
// In: tokens as words (crate tokens), words for the clips. Out: a state, and the small changes that operators are made of:
// look at an operand, push over some, enter a frame. The machine holds nothing that it has painted: an event says that the
// first words of the path (crate path) were painted just now, or that a page was shown, and whoever drives the machine does
// something with it.
//
//     tokens   | shared; frames and values hold parts of them |
//     values   | up to 256 of 24 bytes |                          operand stack
//     frames   | up to  64 of 40 bytes |
//     meanings | 256 of 32 bytes, by a name's number |            bindings
//     order    | up to 256 names, as they were first bound |
//     kept     | up to  16 of 32 bytes |                          graphics states
//     clips    | lent words, the first `graphics.clips` in force; those of a kept state are a front part |
//
// A machine is one of a stage (crate tokens), which says which operators can be done; what that asks for besides is in `stage`.
//
// event: what a step tells, and faults. graphics: the graphics state. state: the state and its changes. stage: stages as parts
// of the whole machine. laws: laws of runs.
#![tactic(auto)]

mod bindings;
mod drawing;
pub mod event;
pub mod graphics;
pub mod laws;
pub mod stage;
pub mod state;
