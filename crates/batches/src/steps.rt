// The six steps of a batch, taken or not.
ghost use Rattle.std.specs.Prelude.{◌≤◌};

use crate::step::Step;

// The steps of a batch: the first `count` of the six are taken.
// A rule of the project: the six steps of a batch are named plain fields, and so no `ArrayVec`.
#[derive(Drop)]
pub(crate) struct Steps {
    pub(crate) count: usize,
    pub(crate) first: Step,
    pub(crate) second: Step,
    pub(crate) third: Step,
    pub(crate) fourth: Step,
    pub(crate) fifth: Step,
    pub(crate) sixth: Step,
    ghost few: { count ≤ 6 },
}
