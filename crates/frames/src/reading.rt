// Reading a line as a frame.
ghost use Rattle.std.specs.Prelude.{◌≡◌, MatchResult, OnOk};
ghost use Rattle.frames.specs.Kinds.{kinds, kind_number};
ghost use Rattle.frames.specs.Laws.{IsFrame, FirstFault};
ghost use Rattle.frames.specs.Reading.{reading, kind_of, frame_of};

use crate::digits::Fields;
use crate::frame::{Frame, TextFault};
use crate::kind::FrameKind;

// The frame that a line is, or the place of its fault.
pub fn read_frame(line: &[u8]) -> Result<Frame, TextFault>
    ensures value { result ≡ reading line.now }
    ensures cases { MatchResult result (λ _. IsFrame line.now) (λ e. FirstFault line.now e.place) }
{
    let mut fields = Fields::new(line);
    let kind = read_kind(&mut fields)?;
    read_fields(&mut fields, kind)
}

// The kind whose number the first two digits write. A first digit that begins no kind's number is the fault, and so is a
// second one that completes none.
fn read_kind(fields: &mut Fields<'_>) -> Result<FrameKind, TextFault>
    requires { fields.old.at ≡ 0 }
    ensures value { MatchResult result
        (λ kind. kind_of kinds fields.old.line.now ≡ Ok (kind_number kind))
        (λ e. reading fields.old.line.now ≡ Err e) }
    ensures after { OnOk result (fields.new ≡ record fields.old { at = 2 }) }
{
    let high = fields.digit()?;
    if high != 0 && high != 2 {
        return Err(TextFault { place: 0 });
    }
    let low = fields.digit()?;
    FrameKind::try_from((high * 16 + low) as u8).map_err(|_| TextFault { place: 1 })
}

// The frame of a kind, from the fields behind its number.
fn read_fields(fields: &mut Fields<'_>, kind: FrameKind) -> Result<Frame, TextFault>
    requires { fields.old.at ≡ 2 }
    ensures { result ≡ frame_of kinds fields.old.line.now (kind_number kind) }
{
    match kind {
        FrameKind::Begin => {
            let rooms = fields.byte()?;
            let wire = fields.byte()?;
            fields.end()?;
            Ok(Frame::Begin { rooms, wire })
        }
        FrameKind::PlanLine => {
            let room = fields.byte()?;
            let set = fields.word()?;
            fields.end()?;
            Ok(Frame::PlanLine { room, set })
        }
        FrameKind::Opening => {
            let base = fields.byte()?;
            let amount = fields.word()?;
            fields.end()?;
            Ok(Frame::Opening { base, amount })
        }
        FrameKind::Seal => {
            fields.end()?;
            Ok(Frame::Seal)
        }
        FrameKind::Amount => {
            let room = fields.byte()?;
            let base = fields.byte()?;
            fields.end()?;
            Ok(Frame::Amount { room, base })
        }
    }
}
