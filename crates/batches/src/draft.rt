// A batch that is being written.
ghost use Rattle.std.specs.Prelude.{◌≡◌, true};
ghost use Rattle.lists.specs.Words.{all};
ghost use Rattle.sets.specs.Sets.{sized};
ghost use Rattle.batches.specs.Batches.{step_right};
ghost use Rattle.batches.specs.Steps.{taken};

use crate::steps::Steps;
use refusals::Refusal;

// A batch being written: its set, and the steps taken so far.
#[derive(Drop)]
pub struct BatchDraft {
    pub(crate) set: u32,
    pub(crate) steps: Steps,
    ghost size: { sized set ≡ true },
    ghost right: { all (step_right set) (taken steps) ≡ true },
}

// A batch that could not be sealed, as it was, and why.
#[derive(Drop)]
pub struct Unsealed {
    pub draft: BatchDraft,
    pub refusal: Refusal,
}
