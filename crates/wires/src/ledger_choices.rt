ghost use Rattle.std.specs.Prelude.{◌≡◌, ◌<◌, length};
ghost use Rattle.wires.specs.Meaning.{meaning_of};
ghost use Rattle.wires.specs.Orders.{head, poster};

use crate::ledger::Ledger;
use crate::left::Left;
use crate::policy::Policy;
use crate::room_number::RoomNumber;

impl Ledger {
    // The room that posted a batch. That the batch is posted is asked here and in other calls: it is a fact of ledger and number
    // together, which no type of the number alone can hold.
    pub(crate) fn poster(&self, batch: u16) -> u8
        requires { batch < length (meaning_of self.now).posts }
        ensures { result ≡ poster (meaning_of self.now).posts batch }
    {
        self.posts[batch as usize].room.number
    }

    // The batch that a policy would number next.
    pub(crate) fn choose_number<P: Policy>(&self, policy: &P) -> Option<u16>
        ensures { result ≡ head (P.Policy.numbers policy.now (meaning_of self.now).posts (meaning_of self.now).definitive) }
    {
        let left = Left {
            posts: &self.posts,
            list: &self.definitive,
        };
        let batch = policy.choose_number(&left)?;
        Some(batch as u16)
    }

    // The batch that a policy would tell a room next.
    pub(crate) fn choose_telling<P: Policy>(&self, policy: &P, room: RoomNumber) -> Option<u16>
        ensures { result ≡ head (P.Policy.tells policy.now (meaning_of self.now).posts ((meaning_of self.now).tentative room.number) room.number) }
    {
        let left = Left {
            posts: &self.posts,
            list: &self.page(room).told,
        };
        let batch = policy.choose_telling(&left, room.number)?;
        Some(batch as u16)
    }
}
