ghost use Rattle.std.specs.Prelude.{◌≤◌};
ghost use Rattle.plan.specs.Plans.{draft_of};

use plan::PlanDraft;
use wires::WireKind;

// A plan that is being written for at most four rooms, and the kind of wire that its house will have.
#[derive(Drop)]
pub struct Draft {
    pub plan: PlanDraft,
    pub wire: WireKind,
    ghost few: { (draft_of plan).rooms ≤ 4 },
}
