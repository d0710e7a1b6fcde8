// The calls of an open house.
ghost use Rattle.std.specs.Prelude.{◌≡◌};
ghost use Rattle.house.specs.Listing.{call_of, answer_of};
ghost use Rattle.houses.specs.Calling.{Made};
ghost use Rattle.houses.specs.Homes.{home_of};

use crate::open_house::OpenHouse;
use house::{Answer, Call};

impl OpenHouse {
    // Makes a call, and gives its answer. The call is made as it is defined, the wire chooses by its rule, and the house keeps the
    // promise. A refused call changes nothing.
    pub fn call(&mut self, call: Call) -> Answer
        ensures { Made (home_of self.old) (call_of call) (answer_of result) (home_of self.new) }
    {
        self.house.call(call)
    }

    // How many rooms the house has.
    pub fn rooms(&self) -> u8
        ensures { result ≡ (home_of self.now).parts.plan.rooms }
    {
        self.house.plan().rooms()
    }
}
