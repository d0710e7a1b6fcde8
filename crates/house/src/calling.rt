// A house called by a value.
ghost use Rattle.std.specs.Prelude.{◌≡◌};
ghost use Rattle.house.specs.Choices.{choice_of};
ghost use Rattle.house.specs.Views.{Calling, answered};
ghost use Rattle.house.specs.Listing.{call_of, answer_of, SameIfRefused};

use crate::call::{Answer, Call};
use crate::house::House;
use refusals::Refusal;
use stock::Book;
use wire::Wire;

impl<W: Wire, B: Book> House<W, B> {
    // Makes a call, and gives its answer.
    pub fn call(&mut self, call: Call) -> Answer
        ensures steps { Calling W.Wire.meaning B.Book.holds self.old (call_of call) (answer_of result) self.new }
        ensures same { SameIfRefused (answer_of result) (self.new ≡ self.old) }
        ensures choice { W.Wire.chooses self.old.wire (choice_of (call_of call) (answer_of result)) self.new.wire }
    {
        self.make(call).unwrap_or_else(Answer::Refused)
    }

    // Makes a call, and gives the answer where it is not refused.
    fn make(&mut self, call: Call) -> Result<Answer, Refusal>
        ensures steps { Calling W.Wire.meaning B.Book.holds self.old (call_of call) (answered answer_of result) self.new }
        ensures same { SameIfRefused (answered answer_of result) (self.new ≡ self.old) }
        ensures choice { W.Wire.chooses self.old.wire (choice_of (call_of call) (answered answer_of result)) self.new.wire }
    {
        match call {
            Call::Post { room, batch } => Ok(Answer::Batch(self.post(room, batch)?)),
            Call::Number => Ok(Answer::Batch(self.number()?)),
            Call::Hear { room } => Ok(Answer::Batch(self.hear(room)?)),
            Call::Settle { room } => {
                let (batch, ahead, thrown) = self.settle(room)?;
                Ok(Answer::Settled {
                    batch,
                    ahead,
                    thrown,
                })
            }
            Call::Run { room, batch } => {
                let (outcome, step) = self.run(room, batch)?;
                Ok(Answer::Ran { outcome, step })
            }
            Call::Release { room, batch } => {
                self.release(room, batch)?;
                Ok(Answer::Done)
            }
            Call::Install { room, sender } => Ok(Answer::Batch(self.install(room, sender)?)),
            Call::Wish { batch } => {
                self.wish(batch);
                Ok(Answer::Done)
            }
            Call::Amount { room, base } => Ok(Answer::Amount(self.amount(room, base)?)),
            Call::Pick { room } => Ok(Answer::Picked(self.pick(room)?)),
        }
    }
}
