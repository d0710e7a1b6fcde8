ghost use Rattle.std.specs.Prelude.{◌≡◌, ℕ, ◌<◌, [], ◌∷◌, ◌++◌, length, IfOk};
ghost use Rattle.lists.specs.Words.{member};
ghost use Rattle.wires.specs.Parts.{numbers_of};

use crate::batch_list::BatchList;
use crate::limits::BATCHES;
use std::alloc::{AllocError, Global};

impl BatchList {
    // An empty list, with the memory for 256 batches.
    pub(crate) fn open(heap: Global) -> Result<BatchList, AllocError>
        ensures { IfOk result (λ l. numbers_of l ≡ []) }
    {
        let numbers = Vec::with_capacity(heap, BATCHES)?;
        let marks = vec![in heap; false; BATCHES]?;
        Ok(BatchList { numbers, marks })
    }

    // How many batches the list has.
    pub fn len(&self) -> usize
        ensures { result ≡ length (numbers_of self.now) }
    {
        self.numbers.len()
    }

    // Whether a batch is in the list.
    pub fn holds(&self, batch: usize) -> bool
        ensures { result ≡ member batch (numbers_of self.now) }
    {
        batch < self.marks.len() && self.marks[batch]
    }

    // Puts a batch at the end. That there is place is asked here and of a page: facts of five lists and counts, each another,
    // which the ledger knows by what it keeps.
    pub(crate) fn append(&mut self, batch: u16)
        requires small { batch < 256 }
        requires room { length (numbers_of self.old) < 256 }
        ensures { numbers_of self.new ≡ numbers_of self.old ++ batch ∷ [] }
    {
        self.numbers.push_reserved(batch);
        self.marks[batch as usize] = true;
    }
}
