ghost use Rattle.std.specs.Prelude.{◌≡◌};
ghost use Rattle.refusals.specs.Causes.{number_of};

// The causes, in the order in which checks are made; but for a line of text the last two come next after the first.
#[derive(Clone, Copy, PartialEq, Eq, Debug)]
pub enum Refusal {
    // a buffer is too short, or a journal's too long
    BufferLength = 1,
    // a room, a sender, a number of rooms or a kind of wire is out of range, or the sender is the hearer
    OutOfRange,
    // a set is empty or has more than eight bases
    SetSize,
    // the plan has a line for this set already
    SetPlanned,
    // the plan has 32 lines already
    PlanFull,
    // a step breaks its rule
    StepRule,
    // a seventh step, no such step to strike, or a batch sealed without a step
    StepCount,
    // the plan has no line for this set
    SetUnplanned,
    // 256 batches are posted already
    WireFull,
    // nothing waits to be numbered, heard, settled or installed
    NothingWaits,
    // run and release: the batch is not heard here; announcing: it is not posted
    UnknownBatch,
    // run and release: the room is not the batch's master
    NotMaster,
    // run and release: the batch is installed here; announcing: it was announced before
    AlreadyInstalled,
    // run: the batch is marked already
    AlreadyMarked,
    // run: the batch is not first in all its lines
    NotFirst,
    // release: the batch is not marked
    NotMarked,
    // release: the batch is marked but still waiting
    StillWaiting,
    // install: the announcement's turn has not come
    NotItsTurn,
    // fewer entries are spare than there are bases to write
    TooFewSpare,
    // a base is above 31, or an amount above 1,000,000,000
    OverLimit,
    // the line is no frame
    NotAFrame,
    // the frame is out of turn
    OutOfTurn,
}

impl From<Refusal> for u8 {
    ghost from_gives = { λ cause number. number ≡ number_of cause };

    // The number of the cause.
    fn from(cause: Refusal) -> u8 {
        cause as u8
    }
}
