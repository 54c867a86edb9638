ghost use Rattle.std.specs.Prelude.{◌≡◌, ◌<◌, [], ◌∷◌, length, IsOk, IsSome, OnOk, OnErr, OnSome, IfNone, ◌↔◌};
ghost use Rattle.machine.specs.Abstraction.{manner_of, saved_of};

use super::Drawing;
use crate::stage::Clipping;
use stack::Full;

impl<'c, S: Clipping> Drawing<'c, S> {
    // the graphics state is kept, and stays in force
    pub fn keep(&mut self) -> Result<(), Full>
        ensures variant { IsOk result ↔ (length (saved_of self.old) < 16) }
        ensures manner { manner_of self.new ≡ manner_of self.old }
        ensures ok { OnOk result (saved_of self.new ≡ manner_of self.old ∷ saved_of self.old) }
        ensures err { OnErr result (saved_of self.new ≡ saved_of self.old) }
    {
        self.kept.try_push(self.graphics)
    }

    // the last kept graphics state is in force again, and no longer kept; says whether there was one
    pub fn restore(&mut self) -> Option<()>
        ensures some { OnSome result (saved_of self.old ≡ manner_of self.new ∷ saved_of self.new) }
        ensures none { IfNone result ((saved_of self.old ≡ []) × (self.new ≡ self.old)) }
    {
        let graphics = self.kept.at(0)?;
        self.kept.drop_top(1);
        self.graphics = graphics;
        Some(())
    }
}
