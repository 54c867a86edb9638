mod beginning;
mod drawing;
mod frames;
mod names;
mod operands;

use crate::bindings::Bindings;
use crate::drawing::Drawing;
use crate::stage::Clipping;
use stack::Stack;

// a body is the part of the stored tokens that holds it
#[derive(Clone, Copy, Debug, PartialEq, Eq)]
pub enum Value<'a> {
    Number(u32),
    Body(&'a [u64]),
    Label(u8),
}

// tokens still to be run, and how often a body after that; the number is last, so that a copy of a frame has no gap in it
#[derive(Clone, Copy)]
pub struct Frame<'a> {
    pub rest: &'a [u64],
    pub whole: &'a [u64],
    pub again: u32,
}

// What a job has while it runs, but for its path and for what it has painted.
#[derive(Drop)]
pub struct Machine<'s, 'a, S: Clipping> {
    values: &'s mut Stack<Value<'a>, 256>,
    frames: &'s mut Stack<Frame<'a>, 64>,
    names: Bindings<'s, 'a>,
    drawing: Drawing<'s, S>,
}
