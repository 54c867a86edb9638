ghost use Rattle.std.specs.Prelude.{◌≡◌, length, ◌==◌};
ghost use Rattle.stack.specs.Contents.{top_down};

use crate::Stack;

impl<T: Copy + Drop, const N: usize> Stack<T, N> {
    // how many items it holds
    pub fn len(&self) -> usize
        ensures { result ≡ length (top_down self.now) }
    {
        self.len
    }

    pub fn is_empty(&self) -> bool
        ensures { result ≡ (length (top_down self.now) == 0) }
    {
        self.len() == 0
    }
}
