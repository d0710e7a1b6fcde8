// The turn and the house layer: what each frame does where it is in turn.
ghost use Rattle.std.specs.Prelude.{◌≡◌, ℕ, [], None};
ghost use Rattle.stock.specs.Stock.{Amounts};
ghost use Rattle.plan.specs.Plan.{Plan};
ghost use Rattle.openings.specs.Amounts.{amounts_of};
ghost use Rattle.sheets.specs.Sheet.{Stage as StageThere, planning};
ghost use Rattle.sheets.specs.Steps.{begin_cause, Turning};
ghost use Rattle.sheets.specs.Views.{planning_of, sheet_at, sheet_of};
ghost use Rattle.frames.specs.declared.frame.Frame.TheVariants.{Begin, Seal};

use crate::draft::Draft;
use crate::sheet::Sheet;
use crate::stage::Stage;
use answers::Reply;
use core::mem::replace_with;
use frames::Frame;
use openings::Opening;
use refusals::Refusal;

impl Stage {
    // Takes up a draft that is just begun, where no plan is.
    fn begin(self, draft: Draft) -> (Stage, Option<Result<Reply, Refusal>>)
        ensures { (lines rooms wire : ℕ) (opening : Amounts) → begin_cause rooms wire ≡ None → planning_of draft ≡ planning (record { rooms = rooms; lines = [] }) wire → Turning (sheet_at lines opening self) (sheet_at lines opening result.0) (Begin rooms wire) result.1 }
    {
        match self {
            Stage::Blank { memory } => (Stage::Planning { draft, memory }, Some(Ok(Reply::Done))),
            other => (other, None),
        }
    }

    // Seals the plan that is being written, and opens its house.
    fn seal(self, opening: &Opening) -> (Stage, Option<Result<Reply, Refusal>>)
        ensures { (lines : ℕ) → Turning (sheet_at lines (amounts_of opening.now) self) (sheet_at lines (amounts_of opening.now) result.0) Seal result.1 }
    {
        match self {
            Stage::Planning { draft, memory } => {
                let house = draft.open(memory, opening);
                (Stage::Open(house), Some(Ok(Reply::Done)))
            }
            other => (other, None),
        }
    }
}

impl Sheet {
    // Carries out a frame in turn, and gives the reply or the cause of its refusal; none for a frame out of turn, which
    // changes nothing. A stage is moved only where it becomes another one.
    pub(crate) fn act(&mut self, frame: Frame) -> Option<Result<Reply, Refusal>>
        ensures { Turning (sheet_of self.old) (sheet_of self.new) frame result }
    {
        match (frame, &mut self.stage) {
            (Frame::Begin { rooms, wire }, stage @ Stage::Blank { .. }) => match Draft::begin(
                rooms, wire,
            ) {
                Ok(draft) => replace_with(stage, draft, Stage::begin),
                Err(cause) => Some(Err(cause)),
            },
            (Frame::PlanLine { room, set }, Stage::Planning { draft, .. }) => {
                Some(draft.add_line(room, set).map(|()| Reply::Done))
            }
            (Frame::Opening { base, amount }, Stage::Planning { .. }) => {
                Some(self.opening.note(base, amount).map(|()| Reply::Done))
            }
            (Frame::Seal, stage @ Stage::Planning { .. }) => {
                replace_with(stage, &self.opening, Stage::seal)
            }
            (Frame::Amount { room, base }, Stage::Open(house)) => {
                Some(house.amount(room, base).map(Reply::Amount))
            }
            _ => None,
        }
    }
}
