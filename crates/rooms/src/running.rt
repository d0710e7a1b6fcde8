// Working a batch out from a book.
ghost use Rattle.std.specs.Prelude.{◌≡◌};
ghost use Rattle.batches.specs.Sealed.{batch_of};
ghost use Rattle.order.specs.Works.{Works as PostedWorks, no_post};
ghost use Rattle.agreement.specs.Rooms.{result_of};
ghost use Rattle.rooms.specs.Views.{works_in};

use crate::works::Works;
use batches::{BatchDraft, RunResult, SealedBatch, Step};
use stock::Book;
use stock::by_set::{pack, read_set};
use wire::Wire;

// The result of running the batch of a number on a book's amounts. The book does not change.
pub(crate) fn work_out<W: Wire, B: Book>(works: &Works<W>, book: &B, number: u16) -> RunResult
    ensures { result ≡ result_of ((works_in works.now).batch number) (B.Book.holds book.now).amounts }
{
    match works.wire.batch(number) {
        Some(batch) => run_on(batch, book),
        None => run_on(&stand_in(), book),
    }
}

// The result of running a batch on a book's amounts.
fn run_on<B: Book>(batch: &SealedBatch, book: &B) -> RunResult
    ensures { result ≡ result_of (batch_of batch.now) (B.Book.holds book.now).amounts }
{
    let set = batch.set();
    let mut amounts = read_set(book, set);
    let (outcome, step) = batch.run(&mut amounts);
    RunResult {
        outcome,
        step,
        amounts: pack(set, &amounts),
    }
}

// What stands for a batch that is not posted: it adds a gram to base 0.
fn stand_in() -> SealedBatch
    ensures { batch_of result ≡ no_post.batch }
{
    let mut draft = BatchDraft::write(1).unwrap();
    draft.add_step(Step::Add { base: 0, amount: 1 }).unwrap();
    draft.seal().unwrap()
}
