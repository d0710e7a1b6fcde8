// Run.
ghost use Rattle.std.specs.Prelude.{◌≡◌, ◌<◌};
ghost use Rattle.refusals.specs.Causes.{answer};
ghost use Rattle.agreement.specs.Rooms.{run_cause};
ghost use Rattle.rooms.specs.Views.{room_of, works_in, room_marked};
ghost use Rattle.rooms.specs.Calls.{Running};

use crate::room::Room;
use crate::running::work_out;
use crate::works::Works;
use batches::{Outcome, RunResult};
use plan::SealedPlan;
use refusals::Refusal;
use stock::Book;
use wire::Wire;

impl Room {
    // Runs a batch that is first in all its lines: works it out from the book's amounts, and marks it with the result. Answers
    // the outcome, and the place of the step that failed, counted from 1, or 0: a rule of the project, and so no `Result` of the two.
    // A refused call changes nothing.
    pub fn run<W: Wire, B: Book>(
        &mut self,
        plan: &SealedPlan,
        wire: &W,
        book: &B,
        batch: u16,
    ) -> Result<(Outcome, u8), Refusal>
        ensures cases { Running W.Wire.meaning B.Book.holds plan.now self.old self.new wire.now book.now batch result }
    {
        let works = Works { plan, wire };
        self.check_run(&works, batch)?;
        let result = work_out(&works, book, batch);
        self.mark(batch, result);
        Ok((result.outcome, result.step))
    }

    // Whether a batch may be run, and why not. The first three tests are those of a release too, each in its order of causes.
    pub(crate) fn check_run<W: Wire>(&self, works: &Works<W>, batch: u16) -> Result<(), Refusal>
        ensures { result ≡ answer (run_cause (works_in works.now) self.now.number (room_of self.now) batch) tt }
    {
        if !self.has_heard(batch) {
            return Err(Refusal::UnknownBatch);
        }
        if works.master_of(batch) != self.number {
            return Err(Refusal::NotMaster);
        }
        if self.installed.has(batch) {
            return Err(Refusal::AlreadyInstalled);
        }
        if self.record_of(batch).mark.is_some() {
            return Err(Refusal::AlreadyMarked);
        }
        if !self.is_first(works, batch) {
            return Err(Refusal::NotFirst);
        }
        Ok(())
    }

    // Marks a batch with the result of its run.
    fn mark(&mut self, batch: u16, res: RunResult)
        requires { batch < 256 }
        ensures after { room_of self.new ≡ room_marked (room_of self.old) batch res }
        ensures number { self.new.number ≡ self.old.number }
    {
        self.records[batch as usize].mark = Some(res);
    }
}
