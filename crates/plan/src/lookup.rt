// The search for a set's line.
ghost use Rattle.std.specs.Prelude.{◌≡◌, ◌==◌, find};
ghost use Rattle.std.specs.Option.{option_copied};
ghost use Rattle.plan.specs.declared.line.PlanLine.{PlanLine};
ghost use Rattle.plan.specs.Plan.{master_in};

use crate::line::PlanLine;
use crate::masters::Masters;

impl Masters {
    // The master that the lines give a set; none where no line has the set.
    #[tactic(auto, using(crate::proofs::Lines::master_in_first))]
    pub(crate) fn of(&self, set: u32) -> Option<u8>
        ensures value { result ≡ master_in self.now.lines.items set }
    {
        self.line_of(set).map(|line| line.master)
    }

    // The first line that has a set.
    fn line_of(&self, set: u32) -> Option<&PlanLine>
        ensures value { option_copied result ≡ find (λ (l : PlanLine). l.set == set) self.now.lines.items }
    {
        self.lines.iter().find(|line| line.set == set)
    }
}
