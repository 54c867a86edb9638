mod clipping;
mod keeping;
mod setting;

ghost use Rattle.std.specs.Prelude.{◌≤◌, length};
ghost use Rattle.stack.specs.Contents.{top_down};
ghost use Rattle.machine.specs.Clips.{Well, Kept};
ghost use Rattle.machine.specs.Props.{kept_prop};

use crate::graphics::GraphicsState;
use crate::stage::Clipping;
use stack::Stack;
use std::marker::PhantomData;

// The graphics state in force, those that are kept, and the words of the clips: the first `graphics.clips` are in force.
#[derive(Drop)]
pub struct Drawing<'c, S: Clipping> {
    graphics: GraphicsState,
    kept: Stack<GraphicsState, 16>,
    clips: &'c mut [u64],
    stage: PhantomData<S>,
    ghost space: { S.clip_room ≤ length clips.now },
    ghost well: { Well clips.now graphics },
    // the clips of each kept state are a front part of those of the next, and of those in force
    ghost nested: { Kept clips.now graphics.clips (top_down kept) } by { kept_prop clips.now graphics.clips (top_down kept) },
}
