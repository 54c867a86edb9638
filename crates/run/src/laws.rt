// Laws of runs, each the contract of a function that only carries it.
ghost use Rattle.run.specs.Laws.{TextRunsWhole, ToldToTheEnd};

use crate::drive::Sink;
use tokens::Stage;

// A text that a stage does not refuse runs, stored, as its tokens do on the whole written machine.
pub fn text_runs_whole<S: Stage>() -> u8
    ensures { TextRunsWhole S.can }
{
    0
}

// A sink that still wants more after a run, as one that always does, was told all of it.
pub fn told_to_the_end<E: Sink>() -> u8
    ensures { ToldToTheEnd E.Sink.paint E.Sink.page }
{
    0
}
