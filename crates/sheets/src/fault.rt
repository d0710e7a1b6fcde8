// Why a line is refused.
ghost use Rattle.std.specs.Prelude.{◌≡◌};
ghost use Rattle.sheets.specs.declared.fault.Fault.TheVariants.{Text};

use frames::{FrameKind, TextFault};
use refusals::Refusal;

// The fault of a line, by the layer that found it.
#[derive(Clone, Copy, PartialEq, Eq, Debug)]
pub enum Fault {
    // the text: the line is no frame from this place on
    Text(TextFault),
    // the turn: the frame comes at the wrong time
    Turn { kind: FrameKind },
    // the house: the frame is refused for a cause
    House { kind: FrameKind, cause: Refusal },
}

// A fault of the text is a fault of the line.
impl From<TextFault> for Fault {
    ghost from_gives = { λ e r. r ≡ Text e };

    fn from(e: TextFault) -> Fault {
        Fault::Text(e)
    }
}

// Why a line has no answer, or an answer that refuses it.
#[derive(Clone, Copy, PartialEq, Eq, Debug)]
pub enum LineFault {
    // the answer buffer is too short: nothing is written, and the line does not count
    AnswerBuffer,
    // the line, by its number from 1, is refused for a fault, and its answer is written
    Refused { line: u64, fault: Fault },
}
