// What a run of a batch comes to.
ghost use Rattle.std.specs.Prelude.{◌≡◌};
ghost use Rattle.batches.specs.Runs.{outcome_number, failed_outcome};

// The outcome of a run. A rule of the project names these three, each with its number, and so no `Result`.
#[derive(Clone, Copy, PartialEq, Eq, Debug)]
pub enum Outcome {
    // every step was made
    Done = 1,
    // a step would have taken more than there was
    Short,
    // a step would have passed 1,000,000,000
    Over,
}

impl From<Outcome> for u8 {
    ghost from_gives = { λ outcome number. number ≡ outcome_number outcome };

    // The number of the outcome.
    fn from(outcome: Outcome) -> u8 {
        outcome as u8
    }
}

// Why a step is not made: an outcome but the first.
#[derive(Clone, Copy, PartialEq, Eq, Debug)]
pub(crate) enum Failure {
    // it would take more than there is
    Short,
    // it would pass 1,000,000,000
    Over,
}

impl From<Failure> for Outcome {
    ghost from_gives = { λ failure outcome. outcome ≡ failed_outcome failure };

    // The outcome of a run in which a step is not made.
    fn from(failure: Failure) -> Outcome {
        match failure {
            Failure::Short => Outcome::Short,
            Failure::Over => Outcome::Over,
        }
    }
}

// The end of a run in which a step is not made: the step's place, counted from 1, and why.
#[derive(Clone, Copy, PartialEq, Eq, Debug)]
pub(crate) struct Failed {
    pub(crate) step: u8,
    pub(crate) failure: Failure,
}

// The result of a run: its outcome, the place of the step that failed, counted from 1, or 0, and the amounts of the
// bases of the batch's set after the run, by rising base, as eight with 0 after them.
// A rule of the project: the three are announced side by side, and so no `Result`.
#[derive(Clone, Copy, PartialEq, Eq, Debug)]
pub struct RunResult {
    pub outcome: Outcome,
    pub step: u8,
    pub amounts: [u32; 8],
}
