// Writing a plan, and opening the house that it is for.
ghost use Rattle.std.specs.Prelude.{◌≡◌, [], map, IfOk, MatchResult};
ghost use Rattle.std.specs.Result.{result_err};
ghost use Rattle.lists.specs.Words.{rising};
ghost use Rattle.plan.specs.Plan.{Plan, line_cause, with_line};
ghost use Rattle.plan.specs.Plans.{draft_of};
ghost use Rattle.wires.specs.Kinds.{kind_number};
ghost use Rattle.openings.specs.Amounts.{amounts_of};
ghost use Rattle.openings.specs.Books.{new_book};
ghost use Rattle.sheets.specs.Sheet.{Stage, planning, open_house};
ghost use Rattle.sheets.specs.Steps.{begin_cause};
ghost use Rattle.sheets.specs.Views.{planning_of, open_of};

use crate::draft::Draft;
use crate::open_house::OpenHouse;
use openings::{BooksMemory, Opening};
use plan::PlanDraft;
use refusals::Refusal;
use wires::WireKind;

impl Draft {
    // Begins a plan for one to four rooms, over a wire of the kind that a number names.
    pub(crate) fn begin(rooms: u8, wire: u8) -> Result<Draft, Refusal>
        ensures refused { result_err result ≡ begin_cause rooms wire }
        ensures made { IfOk result (λ draft. planning_of draft ≡ planning (record { rooms = rooms; lines = [] }) wire) }
    {
        if rooms > 4 {
            return Err(Refusal::OutOfRange);
        }
        let plan = PlanDraft::begin(rooms)?;
        let wire = WireKind::try_from(wire)?;
        Ok(Draft { plan, wire })
    }

    // Takes a plan line; a refused one changes nothing.
    pub(crate) fn add_line(&mut self, room: u8, set: u32) -> Result<(), Refusal>
        ensures refused { result_err result ≡ line_cause (draft_of self.old.plan) set room }
        ensures cases { MatchResult result (λ _. draft_of self.new.plan ≡ with_line (draft_of self.old.plan) set room) (λ _. self.new.plan ≡ self.old.plan) }
        ensures same { self.new.wire ≡ self.old.wire }
    {
        self.plan.add_line(set, room)
    }

    // Seals the plan and opens the house, whose books all have the opening amounts.
    pub(crate) fn open(self, memory: BooksMemory, opening: &Opening) -> OpenHouse
        ensures { open_of result ≡ open_house (draft_of self.plan) (kind_number self.wire) (map (new_book (amounts_of opening.now)) (rising 0 (draft_of self.plan).rooms)) }
    {
        let plan = self.plan.seal();
        let books = memory.open_books(plan.rooms(), opening);
        OpenHouse {
            plan,
            wire: self.wire,
            books,
        }
    }
}
