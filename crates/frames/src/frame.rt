// The frames that a sheet's lines hold, and the fault of a line that holds none.
ghost use Rattle.std.specs.Prelude.{◌≡◌};
ghost use Rattle.frames.specs.Kinds.{frame_kind};

use crate::kind::FrameKind;

// A frame, with its fields.
#[derive(Clone, Copy, PartialEq, Eq, Debug)]
pub enum Frame {
    // a house of so many rooms, over a wire of this kind: a number, since a line is a frame whether or not a kind has it
    Begin { rooms: u8, wire: u8 },
    // a line of the plan: this room is the master of this set
    PlanLine { room: u8, set: u32 },
    // the amount of a base at opening
    Opening { base: u8, amount: u32 },
    // seal the plan and open the house
    Seal,
    // how much of a base a room has
    Amount { room: u8, base: u8 },
}

// The fault of a line that is no frame. Its place is the first character, counted from 0, that no frame has after those
// before it, or the line's length where the line is too short.
#[derive(Clone, Copy, PartialEq, Eq, Debug)]
pub struct TextFault {
    pub place: usize,
}

impl Frame {
    // The frame's kind, whose number its first two digits write.
    pub fn kind(&self) -> FrameKind
        ensures { result ≡ frame_kind self.now }
    {
        match self {
            Frame::Begin { .. } => FrameKind::Begin,
            Frame::PlanLine { .. } => FrameKind::PlanLine,
            Frame::Opening { .. } => FrameKind::Opening,
            Frame::Seal => FrameKind::Seal,
            Frame::Amount { .. } => FrameKind::Amount,
        }
    }
}
