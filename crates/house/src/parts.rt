// The parts of a house: looked at while it is open, and handed back when it is closed.
ghost use Rattle.std.specs.Prelude.{◌≡◌, ◌≤◌, MatchOption, slice_index_or};
ghost use Rattle.plan.specs.Plans.{plan_of};

use crate::closed::Closed;
use crate::house::House;
use plan::SealedPlan;
use rooms::Room;
use stock::Book;
use wire::Wire;

impl<W: Wire, B: Book> House<W, B> {
    // The plan of the house.
    pub fn plan(&self) -> &SealedPlan
        ensures value { result.now ≡ self.now.plan }
    {
        &self.plan
    }

    // The wire of the house.
    pub fn wire(&self) -> &W
        ensures value { result.now ≡ self.now.wire }
    {
        &self.wire
    }

    // A room of the house; none where the plan has no such room.
    pub fn room(&self, room: u8) -> Option<&Room>
        ensures cases { MatchOption result ((plan_of self.now.plan).rooms ≤ room) (λ x. x.now ≡ slice_index_or self.now.rooms.items room x.now) }
    {
        self.rooms.get(room as usize)
    }

    // A room's book; none where the plan has no such room.
    pub fn book(&self, room: u8) -> Option<&B>
        ensures cases { MatchOption result ((plan_of self.now.plan).rooms ≤ room) (λ x. x.now ≡ slice_index_or self.now.books.items room x.now) }
    {
        self.books.get(room as usize)
    }

    // Closes the house, and hands back what it was opened with.
    pub fn close(self) -> Closed<W, B>
        ensures value { result ≡ record { plan = self.plan; wire = self.wire; books = self.books } }
    {
        let House {
            plan,
            wire,
            books,
            ..
        } = self;
        Closed { plan, wire, books }
    }
}
