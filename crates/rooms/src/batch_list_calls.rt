// What a room asks of a list of batches, and does to it.
ghost use Rattle.std.specs.Prelude.{◌≡◌, ◌<◌, false, not, [], ◌∷◌, ◌++◌, length, IfOk, MatchOption};
ghost use Rattle.lists.specs.Words.{before, keep, member, place, without};
ghost use Rattle.lists.specs.Gaps.{without_at};
ghost use Rattle.rooms.specs.Lists.{numbers_of};

use crate::batch_list::BatchList;
use crate::limits::BATCHES;
use lists::close_gap;
use std::alloc::{AllocError, Global};

// Whether a batch stands in a part of a list.
pub(crate) fn holds(part: &[u16], batch: u16) -> bool
    ensures { result ≡ member batch part.now }
{
    part.contains(&batch)
}

impl BatchList {
    // An empty list.
    pub(crate) fn open(heap: Global) -> Result<BatchList, AllocError>
        ensures { IfOk result (λ l. numbers_of l ≡ []) }
    {
        let numbers = Vec::with_capacity(heap, BATCHES)?;
        Ok(BatchList { numbers })
    }

    // The batches in their order.
    pub(crate) fn as_slice(&self) -> &[u16]
        ensures { result.now ≡ numbers_of self.now }
    {
        self.numbers.as_slice()
    }

    // How many batches stand in the list.
    pub(crate) fn len(&self) -> usize
        ensures { result ≡ length (numbers_of self.now) }
    {
        self.numbers.len()
    }

    // Whether a batch stands in the list.
    pub(crate) fn has(&self, batch: u16) -> bool
        ensures { result ≡ member batch (numbers_of self.now) }
    {
        holds(&self.numbers, batch)
    }

    // Whether a batch stands before another.
    pub(crate) fn has_before(&self, batch: u16, other: u16) -> bool
        ensures { result ≡ before (numbers_of self.now) batch other }
    {
        match (self.place_of(batch), self.place_of(other)) {
            (Some(at), Some(other_at)) => at < other_at,
            _ => false,
        }
    }

    // The place of a batch, from 0.
    fn place_of(&self, batch: u16) -> Option<usize>
        ensures { MatchOption result (member batch (numbers_of self.now) ≡ false) (λ at. (at ≡ place batch (numbers_of self.now)) × (at < length (numbers_of self.now))) }
    {
        self.numbers.iter().position(|other| *other == batch)
    }

    // Puts a batch at the end of a list of fewer than 256.
    pub(crate) fn append(&mut self, batch: u16)
        requires small { batch < 256 }
        requires few { length (numbers_of self.old) < 256 }
        ensures { numbers_of self.new ≡ numbers_of self.old ++ batch ∷ [] }
    {
        self.numbers.push_reserved(batch);
    }

    // Takes a batch out, wherever it stands: the type does not say that a batch stands there once.
    pub(crate) fn take_out(&mut self, batch: u16)
        ensures { numbers_of self.new ≡ without batch (numbers_of self.old) }
    {
        while let Some(at) = self.place_of(batch) {
            self.cut(at);
        }
    }

    // Takes some batches out.
    pub(crate) fn take_out_all(&mut self, batches: &[u16])
        ensures { numbers_of self.new ≡ keep (λ b. not (member b batches.now)) (numbers_of self.old) }
    {
        for batch in batches {
            self.take_out(*batch);
        }
    }

    // Takes out the batch at a place. A rule of the project: the one removal that closes a gap serves a room's lists too.
    fn cut(&mut self, at: usize)
        requires { at < length (numbers_of self.old) }
        ensures { numbers_of self.new ≡ without_at at (numbers_of self.old) }
    {
        let _ = close_gap(self.numbers.as_mut_slice(), at);
        let _ = self.numbers.pop();
    }
}
