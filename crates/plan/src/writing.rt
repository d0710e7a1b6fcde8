// What can be done with a plan that is being written.
ghost use Rattle.std.specs.Prelude.{◌≡◌, [], IfOk, MatchResult};
ghost use Rattle.std.specs.Result.{result_err};
ghost use Rattle.plan.specs.Plan.{Plan, begin_cause, line_cause, with_line};
ghost use Rattle.plan.specs.Plans.{draft_of};

use crate::draft::PlanDraft;
use crate::line::PlanLine;
use crate::masters::Masters;
use arrayvec::ArrayVec;
use refusals::Refusal;

impl PlanDraft {
    // Begins a plan for one to eight rooms; it has no line yet.
    pub fn begin(rooms: u8) -> Result<PlanDraft, Refusal>
        ensures refused { result_err result ≡ begin_cause rooms }
        ensures made { IfOk result (λ draft. draft_of draft ≡ record { rooms = rooms; lines = [] }) }
    {
        if !(1..=8).contains(&rooms) {
            return Err(Refusal::OutOfRange);
        }
        let lines = ArrayVec::new();
        Ok(PlanDraft {
            masters: Masters { rooms, lines },
        })
    }

    // Takes one more line, which gives a set its master; a refused one changes nothing.
    #[tactic(auto, using(crate::proofs::Lines::line_put))]
    pub fn add_line(&mut self, set: u32, master: u8) -> Result<(), Refusal>
        ensures refused { result_err result ≡ line_cause (draft_of self.old) set master }
        ensures cases { MatchResult result (λ _. draft_of self.new ≡ with_line (draft_of self.old) set master) (λ _. self.new ≡ self.old) }
    {
        let line = PlanLine { set, master };
        self.check_line(line)?;
        self.masters.lines.push(line);
        Ok(())
    }

    // Refuses a line that has a cause for it.
    fn check_line(&self, line: PlanLine) -> Result<(), Refusal>
        ensures refused { result_err result ≡ line_cause (draft_of self.now) line.set line.master }
    {
        if line.master >= self.masters.rooms {
            return Err(Refusal::OutOfRange);
        }
        if !sets::is_sized(line.set) {
            return Err(Refusal::SetSize);
        }
        if self.masters.of(line.set).is_some() {
            return Err(Refusal::SetPlanned);
        }
        if self.masters.lines.is_full() {
            return Err(Refusal::PlanFull);
        }
        Ok(())
    }
}
