// The laws of steps and of runs, as the contracts of functions.
ghost use Rattle.batches.specs.Laws.{WrittenRead, OthersStay, OwnBasesCount, LimitHolds, DoneOrFails, TotalFollows, WorkedRuns};

// The numbers that a step is written as can be read.
pub fn written_steps_are_read()
    ensures { WrittenRead }
{}

// What holds of every run.
pub fn runs_keep_laws()
    ensures others { OthersStay }
    ensures own { OwnBasesCount }
    ensures limit { LimitHolds }
    ensures fails { DoneOrFails }
    ensures total { TotalFollows }
{}

// Five runs worked out.
pub fn worked_runs()
    ensures { WorkedRuns }
{}
