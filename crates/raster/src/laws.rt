// The laws of coverage, each the contract of a function that only carries it.
ghost use Rattle.raster.specs.Laws.{AnyBeginning, EitherWay, SharedWay, MovesWhole, MayBeExchanged, ClipNarrows};

// A ring covers the same dots from whichever point it begins.
pub fn any_beginning() -> u8
    ensures { AnyBeginning }
{
    0
}

// A ring covers the same dots whichever way round it goes.
pub fn either_way() -> u8
    ensures { EitherWay }
{
    0
}

// Two rings that share an edge cover together what the ring around both covers.
pub fn shared_way() -> u8
    ensures { SharedWay }
{
    0
}

// A picture moved by whole dots is the same picture there.
pub fn moves_whole() -> u8
    ensures { MovesWhole }
{
    0
}

// Neighbours in the order of painting that share no dot may be exchanged.
pub fn may_be_exchanged() -> u8
    ensures { MayBeExchanged }
{
    0
}

// A clip only takes dots away: those outside it.
pub fn clip_narrows() -> u8
    ensures { ClipNarrows }
{
    0
}
