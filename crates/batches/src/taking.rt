// What can be done with the six steps of a batch.
ghost use Rattle.std.specs.Prelude.{◌≡◌, ◌<◌, ◌≤◌, [], ◌∷◌, ◌++◌, take, length, nat_le, ◌==◌, MatchOption};
ghost use Rattle.std.specs.List.{slice_get};
ghost use Rattle.lists.specs.Gaps.{without_at};
ghost use Rattle.batches.specs.Steps.{six, taken};

use crate::step::Step;
use crate::steps::Steps;
use lists::{close_gap, item_at};

impl Steps {
    // Six steps of which none is taken.
    pub(crate) fn new() -> Steps
        ensures { taken result ≡ [] }
    {
        let unused = Step::Add { base: 0, amount: 0 };
        Steps::from_six([unused; 6], 0)
    }

    // How many steps are taken.
    pub(crate) fn len(&self) -> usize
        ensures { result ≡ length (taken self.now) }
    {
        self.count
    }

    // Whether no step is taken.
    pub(crate) fn is_empty(&self) -> bool
        ensures { result ≡ (length (taken self.now) == 0) }
    {
        self.count == 0
    }

    // Whether all six are taken.
    pub(crate) fn is_full(&self) -> bool
        ensures { result ≡ nat_le 6 (length (taken self.now)) }
    {
        self.count >= 6
    }

    // The taken step at a place, from 0; none where there is no such step.
    pub(crate) fn get(&self, place: usize) -> Option<Step>
        ensures { result ≡ slice_get (taken self.now) place }
    {
        item_at(&self.six()[..self.count], place)
    }

    // Takes one more step.
    pub(crate) fn push(&mut self, step: Step)
        requires { length (taken self.old) < 6 }
        ensures { taken self.new ≡ taken self.old ++ step ∷ [] }
    {
        let mut six = self.six();
        six[self.count] = step;
        *self = Steps::from_six(six, self.count + 1);
    }

    // Takes out the step at a place, from 0, and answers it; the steps after it move up. Where there is no such step
    // nothing changes.
    pub(crate) fn remove(&mut self, place: usize) -> Option<Step>
        ensures value { result ≡ slice_get (taken self.old) place }
        ensures cases { MatchOption result ((length (taken self.old) ≤ place) × (self.new ≡ self.old)) (λ _. (place < length (taken self.old)) × (taken self.new ≡ without_at place (taken self.old))) }
    {
        if place >= self.count {
            return None;
        }
        let mut six = self.six();
        let removed = close_gap(&mut six, place)?;
        *self = Steps::from_six(six, self.count - 1);
        Some(removed)
    }

    // The six fields in their order.
    pub(crate) fn six(&self) -> [Step; 6]
        ensures { result ≡ six self.now }
    {
        [
            self.first,
            self.second,
            self.third,
            self.fourth,
            self.fifth,
            self.sixth,
        ]
    }

    // The six steps of an array, of which the first `count` are taken.
    fn from_six(six: [Step; 6], count: usize) -> Steps
        requires { count ≤ 6 }
        ensures { taken result ≡ take count six }
    {
        let [first, second, third, fourth, fifth, sixth] = six;
        Steps {
            count,
            first,
            second,
            third,
            fourth,
            fifth,
            sixth,
        }
    }
}
