ghost use Rattle.std.specs.Prelude.{◌≡◌, ◌≤◌, [], length, take};
ghost use Rattle.machine.specs.Abstraction.{manner_of, saved_of, grey_of, scale_of, corner_of, initial};

use super::Drawing;
use crate::graphics::GraphicsState;
use crate::stage::Clipping;
use stack::Stack;
use std::marker::PhantomData;

impl<'c, S: Clipping> Drawing<'c, S> {
    // the graphics state that a job begins with, and none kept
    pub fn new(clips: &'c mut [u64]) -> Drawing<'c, S>
        requires { S.clip_room ≤ length clips.old }
        ensures manner { manner_of result ≡ initial }
        ensures saved { saved_of result ≡ [] }
    {
        let graphics = GraphicsState {
            grey: 0,
            scale: 16,
            left: 0,
            top: 0,
            clips: 0,
            weight: 0,
        };
        Drawing {
            graphics,
            kept: Stack::new(graphics),
            clips,
            stage: PhantomData,
        }
    }

    // the graphics state in force
    pub fn graphics(&self) -> GraphicsState
        ensures { result ≡ self.now.graphics }
    {
        self.graphics
    }

    // the words of the clips in force
    pub fn clip_words(&self) -> &[u64]
        ensures { result.now ≡ take self.now.graphics.clips self.now.clips.now }
    {
        let n = self.graphics.clips;
        &self.clips[0..n]
    }

    pub fn set_grey(&mut self, grey: u8)
        ensures manner { manner_of self.new ≡ grey_of (manner_of self.old) grey }
        ensures saved { saved_of self.new ≡ saved_of self.old }
    {
        self.graphics.grey = grey;
    }

    pub fn set_scale(&mut self, scale: u32)
        ensures manner { manner_of self.new ≡ scale_of (manner_of self.old) scale }
        ensures saved { saved_of self.new ≡ saved_of self.old }
    {
        self.graphics.scale = scale;
    }

    pub fn set_corner(&mut self, x: u32, y: u32)
        ensures manner { manner_of self.new ≡ corner_of (manner_of self.old) x y }
        ensures saved { saved_of self.new ≡ saved_of self.old }
    {
        self.graphics.left = x;
        self.graphics.top = y;
    }
}
