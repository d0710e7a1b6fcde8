// A line of a plan: a set of bases, and the room that works out the batches of that set.
#[derive(Clone, Copy, PartialEq, Eq, Debug, Default)]
pub struct PlanLine {
    pub set: u32,
    pub master: u8,
}
