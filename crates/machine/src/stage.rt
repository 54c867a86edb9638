ghost use Rattle.std.specs.Prelude.{◌≡◌, ℕ, ◌≤◌, true};
ghost use Rattle.std.proofs.Common.{rules};
ghost use Rattle.machine.specs.Stage.{NoneOutside, StageIsWhole, StagesAreWhole, StepIsWhole, WholeIsWhole};

use tokens::{Stage, Thin, Whole};

// A stage as a machine has it: how many words for clips it has to be lent. A stage that clips has room for as many clips
// as there may be: 1,024 paths and points, which take three words each at most.
pub trait Clipping: Stage {
    ghost clip_room: { ℕ };

    ghost has_room: { Self.can 14 ≡ true → 3072 ≤ clip_room };
}

impl Clipping for Thin {
    ghost clip_room = { 0 };

    ghost has_room = { λ e. Prim.search rules };
}

impl Clipping for Whole {
    ghost clip_room = { 3072 };

    ghost has_room = { λ e. Prim.search rules };
}

// on tokens without operators of other stages, a run of the first stage is a run of the whole machine
pub fn stage_is_whole() -> u8
    ensures { StageIsWhole }
{
    0
}

// and so is a run of any stage
pub fn stages_are_whole() -> u8
    ensures { StagesAreWhole }
{
    0
}

// and a run of the stage of all operators is one of the whole machine, from any state, step by step
pub fn whole_is_whole() -> u8
    ensures runs { WholeIsWhole }
    ensures steps { StepIsWhole }
{
    0
}

// and no operator is outside of it: what says that `Unsupported` comes only there says here that it never does
pub fn none_outside() -> u8
    ensures { NoneOutside }
{
    0
}
