ghost use Rattle.std.specs.Prelude.{◌≡◌};
ghost use Rattle.lists.specs.Words.{member};
ghost use Rattle.wires.specs.Orders.{head, left, left_of, left_round};

use crate::left::Left;
use crate::limits::ROOMS;

impl Left<'_> {
    // Whether a batch is posted and the list lacks it.
    pub fn has(&self, batch: usize) -> bool
        ensures { result ≡ member batch (left self.now.posts self.now.list) }
    {
        batch < self.posts.len() && !self.list.holds(batch)
    }

    // The oldest batch that is left.
    pub fn oldest(&self) -> Option<usize>
        ensures { result ≡ head (left self.now.posts self.now.list) }
    {
        (0..self.posts.len()).find(|&batch| !self.list.holds(batch))
    }

    // The oldest that is left of those that a room posted.
    pub fn oldest_of(&self, room: u8) -> Option<usize>
        ensures { result ≡ head (left_of self.now.posts self.now.list room) }
    {
        self.posts.iter().enumerate().position(|(batch, post)| post.room.number == room
            && !self.list.holds(batch))
    }

    // Going round the rooms from one of them, the oldest that is left of the first room that posted one of these.
    pub fn oldest_round(&self, from: u8) -> Option<usize>
        ensures { result ≡ head (left_round self.now.posts self.now.list from) }
    {
        self.oldest()?;
        (0..ROOMS).find_map(|step| self.oldest_of(from.wrapping_add(step) % ROOMS))
    }
}
