ghost use Rattle.std.specs.Prelude.{◌≡◌, ◌<◌, [], ◌∷◌, length, drop, slice_get, slice_set, IsOk, OnOk, OnErr, ◌↔◌};
ghost use Rattle.stack.specs.Contents.{top_down};

use crate::{Full, Stack};

impl<T: Copy + Drop, const N: usize> Stack<T, N> {
    // No items; `blank` stands at every place until something else does.
    pub fn new(blank: T) -> Self
        ensures { top_down result ≡ [] }
    {
        Stack {
            items: [blank; N],
            len: 0,
        }
    }

    // One item more, on the top. There must be room.
    pub fn push(&mut self, item: T)
        requires { length (top_down self.old) < N }
        ensures { top_down self.new ≡ item ∷ top_down self.old }
    {
        self.items[self.len] = item;
        self.len += 1;
    }

    // An item in place of the uppermost `n`; refused where there is no room for it.
    pub fn try_push_over(&mut self, n: usize, item: T) -> Result<(), Full>
        ensures variant { IsOk result ↔ (length (drop n (top_down self.old)) < N) }
        ensures ok { OnOk result (top_down self.new ≡ item ∷ drop n (top_down self.old)) }
        ensures err { OnErr result (self.new ≡ self.old) }
    {
        let len = self.len.saturating_sub(n);
        if len >= N {
            return Err(Full);
        }
        self.items[len] = item;
        self.len = len + 1;
        Ok(())
    }

    // One item more, on the top; refused where there is no room for it.
    pub fn try_push(&mut self, item: T) -> Result<(), Full>
        ensures variant { IsOk result ↔ (length (top_down self.old) < N) }
        ensures ok { OnOk result (top_down self.new ≡ item ∷ top_down self.old) }
        ensures err { OnErr result (self.new ≡ self.old) }
    {
        self.try_push_over(0, item)
    }

    // The item that stands so far below the top.
    pub fn at(&self, below: usize) -> Option<T>
        ensures { result ≡ slice_get (top_down self.now) below }
    {
        let at = self.len.checked_sub(1)?.checked_sub(below)?;
        Some(self.items[at])
    }

    // Another item so far below the top, if one stands there.
    pub fn set(&mut self, below: usize, item: T)
        ensures { top_down self.new ≡ slice_set (top_down self.old) below item }
    {
        if below < self.len {
            self.items[self.len - 1 - below] = item;
        }
    }

    pub fn clear(&mut self)
        ensures { top_down self.new ≡ [] }
    {
        self.len = 0;
    }

    // All but the uppermost `n`.
    pub fn drop_top(&mut self, n: usize)
        ensures { top_down self.new ≡ drop n (top_down self.old) }
    {
        self.len = self.len.saturating_sub(n);
    }
}
