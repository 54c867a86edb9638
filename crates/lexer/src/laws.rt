// The laws of reading, each the contract of a function that only carries it.
ghost use Rattle.lexer.specs.Laws.{SpacesFree, WiderReads, FirstStageKept};

// One more space where there is one changes nothing.
pub fn spaces_free() -> u8
    ensures { SpacesFree }
{
    0
}

// Where more operators may be done, a text that is tokens is the same tokens.
pub fn wider_reads() -> u8
    ensures { WiderReads }
{
    0
}

// A text of the first stage is the same tokens where every operator may be done.
pub fn first_stage_kept() -> u8
    ensures { FirstStageKept }
{
    0
}
