// What can be done with a batch that is being written.
ghost use Rattle.std.specs.Prelude.{◌≡◌, [], IfOk, Some, None, MatchResult};
ghost use Rattle.std.specs.List.{slice_get};
ghost use Rattle.std.specs.Result.{result_err};
ghost use Rattle.batches.specs.Batches.{Batch, batch_cause, step_cause, strike_cause, seal_cause, with_step, without_step};
ghost use Rattle.batches.specs.Sealed.{draft_of, batch_of};

use crate::draft::{BatchDraft, Unsealed};
use crate::sealed::SealedBatch;
use crate::step::Step;
use crate::steps::Steps;
use refusals::Refusal;
use sets::is_sized;

impl BatchDraft {
    // Begins a batch for a set of one to eight bases; it has no step yet.
    pub fn write(set: u32) -> Result<BatchDraft, Refusal>
        ensures refused { result_err result ≡ batch_cause set }
        ensures made { IfOk result (λ draft. draft_of draft ≡ record { set = set; steps = [] }) }
    {
        if !is_sized(set) {
            return Err(Refusal::SetSize);
        }
        Ok(BatchDraft {
            set,
            steps: Steps::new(),
        })
    }

    // Takes one more step; a refused one changes nothing.
    pub fn add_step(&mut self, step: Step) -> Result<(), Refusal>
        ensures refused { result_err result ≡ step_cause (draft_of self.old) step }
        ensures cases { MatchResult result (λ _. draft_of self.new ≡ with_step (draft_of self.old) step) (λ _. self.new ≡ self.old) }
    {
        if !step.keeps_rule(self.set) {
            return Err(Refusal::StepRule);
        }
        if self.steps.is_full() {
            return Err(Refusal::StepCount);
        }
        self.steps.push(step);
        Ok(())
    }

    // Strikes the step at a place, from 0, and answers it; the steps after it move up. A refused call changes nothing.
    pub fn strike(&mut self, place: usize) -> Result<Step, Refusal>
        ensures refused { result_err result ≡ strike_cause (draft_of self.old) place }
        ensures cases { MatchResult result (λ step. (slice_get (draft_of self.old).steps place ≡ Some step) × (draft_of self.new ≡ without_step (draft_of self.old) place)) (λ _. self.new ≡ self.old) }
    {
        self.steps.remove(place).ok_or(Refusal::StepCount)
    }

    // Seals the batch: it means what it meant, and takes no more steps. A batch without a step comes back as it was.
    pub fn seal(self) -> Result<SealedBatch, Unsealed>
        ensures cases { MatchResult result (λ batch. (seal_cause (draft_of self) ≡ None) × (batch_of batch ≡ draft_of self)) (λ e. (seal_cause (draft_of self) ≡ Some e.refusal) × (e.draft ≡ self)) }
    {
        if self.steps.is_empty() {
            return Err(Unsealed {
                draft: self,
                refusal: Refusal::StepCount,
            });
        }
        let BatchDraft { set, steps } = self;
        Ok(SealedBatch { set, steps })
    }
}

impl From<Unsealed> for Refusal {
    ghost from_gives = { λ unsealed refusal. refusal ≡ unsealed.refusal };

    // Why the batch could not be sealed.
    fn from(unsealed: Unsealed) -> Refusal {
        unsealed.refusal
    }
}
