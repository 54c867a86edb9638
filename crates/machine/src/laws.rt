// The laws of runs, each the contract of a function that only carries it.
ghost use Rattle.machine.specs.Laws.{FaultsAreEight, MoreSteps, ShownStays};

// A job that came to its end by itself or by a fault comes to the same with more steps.
pub fn more_steps() -> u8
    ensures { MoreSteps }
{
    0
}

// The whole machine ends with no more than 8: at no operator does it say that it can't do it.
pub fn faults_are_eight() -> u8
    ensures { FaultsAreEight }
{
    0
}

// A page shown stays as it is, whatever the job does after.
pub fn shown_stays() -> u8
    ensures { ShownStays }
{
    0
}
