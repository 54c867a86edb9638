ghost use Rattle.std.specs.Prelude.{ℕ, ◌≤◌};
ghost use Rattle.std.proofs.Common.{rules};

use machine::stage::Clipping;
use tokens::{Thin, Whole};

// A stage as it is tried: how many words it is lent for its clips, and what keeping a state is to it.
pub trait Tried: Clipping {
    const CLIPS: usize;

    const KEEPING: &'static str;

    ghost CLIPS: { ℕ };

    ghost lends: { Self.clip_room ≤ CLIPS };
}

impl Tried for Thin {
    const CLIPS: usize = 4;

    const KEEPING: &'static str = "an operator of another stage";

    ghost CLIPS = { 4 };

    ghost lends = { Prim.search rules };
}

impl Tried for Whole {
    const CLIPS: usize = 3072;

    const KEEPING: &'static str = "a state kept";

    ghost CLIPS = { 3072 };

    ghost lends = { Prim.search rules };
}
