// The kinds of frames, each with its number.
ghost use Rattle.std.specs.Prelude.{◌≡◌, ◌++◌, Some, codes};
ghost use Rattle.std.specs.Fmt.{decimal};
ghost use Rattle.frames.specs.Kinds.{kind_number, HasKind};

use std::error::Error;
use std::fmt;

// A kind of frame.
#[derive(Clone, Copy, PartialEq, Eq, Debug)]
pub enum FrameKind {
    // begin a house
    Begin = 0x01,
    // put a line into the plan
    PlanLine = 0x02,
    // give the amount of a base at opening
    Opening = 0x03,
    // seal the plan and open the house
    Seal = 0x04,
    // ask how much of a base a room has
    Amount = 0x20,
}

// A number that no kind of frame has.
#[derive(Clone, Copy, PartialEq, Eq, Debug)]
pub struct UnknownKind(pub u8);

// The number of a kind.
impl From<FrameKind> for u8 {
    ghost from_gives = { λ kind number. number ≡ kind_number kind };

    fn from(kind: FrameKind) -> u8 {
        kind as u8
    }
}

// The kind with a number.
impl TryFrom<u8> for FrameKind {
    type Error = UnknownKind;

    ghost try_from_gives = { HasKind };

    fn try_from(number: u8) -> Result<FrameKind, UnknownKind> {
        match number {
            0x01 => Ok(FrameKind::Begin),
            0x02 => Ok(FrameKind::PlanLine),
            0x03 => Ok(FrameKind::Opening),
            0x04 => Ok(FrameKind::Seal),
            0x20 => Ok(FrameKind::Amount),
            _ => Err(UnknownKind(number)),
        }
    }
}

impl fmt::Display for UnknownKind {
    ghost output = { λ e. Some (codes "no kind of frame has the number " ++ decimal e.0) };

    fn fmt<W: fmt::Write>(&self, f: &mut fmt::Formatter<W>) -> fmt::Result {
        write!(f, "no kind of frame has the number {}", self.0)
    }
}

impl Error for UnknownKind {}
