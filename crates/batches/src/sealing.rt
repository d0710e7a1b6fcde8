// What a sealed batch answers, and its run.
ghost use Rattle.std.specs.Prelude.{◌≡◌, length, ◌≢◌};
ghost use Rattle.std.specs.List.{slice_get};
ghost use Rattle.stock.specs.Stock.{amounts_in};
ghost use Rattle.batches.specs.declared.outcome.Outcome.TheVariants.{Done};
ghost use Rattle.batches.specs.Batches.{Batch};
ghost use Rattle.batches.specs.Runs.{Ran, run};
ghost use Rattle.batches.specs.Sealed.{batch_of};

use crate::outcome::Outcome;
use crate::running::make_steps;
use crate::sealed::SealedBatch;
use crate::step::Step;

impl SealedBatch {
    // The set of bases that the batch is for.
    pub fn set(&self) -> u32
        ensures value { result ≡ (batch_of self.now).set }
    {
        self.set
    }

    // How many steps the batch has.
    pub fn count(&self) -> usize
        ensures value { result ≡ length (batch_of self.now).steps }
    {
        self.steps.len()
    }

    // The step at a place, from 0; none where there is no such step.
    pub fn step(&self, place: usize) -> Option<Step>
        ensures value { result ≡ slice_get (batch_of self.now).steps place }
    {
        self.steps.get(place)
    }

    // Runs the batch. Where every step is done the amounts are those after it, else they are as they were; answers the
    // outcome, and the place of the step that failed, counted from 1, or 0.
    // A rule of the project: a run answers the two as they are announced, and so no `Result`.
    pub fn run(&self, amounts: &mut [u32; 32]) -> (Outcome, u8)
        ensures value { record { outcome = result.0; step = result.1; after = amounts_in amounts.new } ≡ run (batch_of self.now) (amounts_in amounts.old) }
        ensures same { (result.0 ≢ Done) → amounts.new ≡ amounts.old }
    {
        let six = self.steps.six();
        match make_steps(&six[..self.steps.len()], amounts) {
            Ok(()) => (Outcome::Done, 0),
            Err(failed) => (failed.failure.into(), failed.step),
        }
    }
}
