// Sealing a plan, and what a sealed plan answers.
ghost use Rattle.std.specs.Prelude.{◌≡◌};
ghost use Rattle.plan.specs.Plan.{Plan, master_in};
ghost use Rattle.plan.specs.Plans.{draft_of, plan_of};

use crate::draft::PlanDraft;
use crate::sealed::SealedPlan;

impl PlanDraft {
    // Seals the plan: it means what it meant, and takes no more lines.
    pub fn seal(self) -> SealedPlan
        ensures value { plan_of result ≡ draft_of self }
    {
        SealedPlan {
            masters: self.masters,
        }
    }
}

impl SealedPlan {
    // For how many rooms the plan is.
    pub fn rooms(&self) -> u8
        ensures value { result ≡ (plan_of self.now).rooms }
    {
        self.masters.rooms
    }

    // The master room of a set; none where no line has the set.
    pub fn master(&self, set: u32) -> Option<u8>
        ensures value { result ≡ master_in (plan_of self.now).lines set }
    {
        self.masters.of(set)
    }
}
