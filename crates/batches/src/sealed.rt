// A batch that takes no more steps.
ghost use Rattle.std.specs.Prelude.{◌≡◌, true};
ghost use Rattle.batches.specs.Batches.{Batch, batch_right};
ghost use Rattle.batches.specs.Steps.{taken};

use crate::steps::Steps;

// A sealed batch: its set, and its steps. It can be posted once.
#[derive(Drop)]
pub struct SealedBatch {
    pub(crate) set: u32,
    pub(crate) steps: Steps,
    ghost right: { batch_right (record { set = set; steps = taken steps }) ≡ true },
}
