ghost use Rattle.std.specs.Prelude.{◌≡◌, ℕ, List};
ghost use Rattle.wire.specs.Wire.{Posted};
ghost use Rattle.wires.specs.Orders.{head, Orders};

use crate::left::Left;

// What chooses for a wire. A policy says by an order of preference which of the batches that are left it would rather have:
// the first of the order is chosen.
pub trait Policy: Sized {
    // the order for the definitive list: by the policy, the posts, and what is in the list
    ghost numbers: { Self → List Posted → List ℕ → List ℕ };

    // the order for a room's tentative list
    ghost tells: { Self → List Posted → List ℕ → ℕ → List ℕ };

    // the policy of a new wire
    ghost fresh: { Self };

    // the policy after a batch that a room posted was numbered
    ghost served: { Self → ℕ → Self };

    // the policy after a batch was told
    ghost heard: { Self → Self };

    // the policy after a wish
    ghost wished: { Self → ℕ → Self };

    // The policy of a new wire.
    fn start() -> Self
        ensures { result ≡ fresh };

    // The batch to be numbered next, of those that the definitive list lacks.
    fn choose_number(&self, left: &Left) -> Option<usize>
        ensures { result ≡ head (numbers self.now left.now.posts left.now.list) };

    // The batch to be told to a room next, of those that its tentative list lacks.
    fn choose_telling(&self, left: &Left, room: u8) -> Option<usize>
        ensures { result ≡ head (tells self.now left.now.posts left.now.list room) };

    // A batch that a room posted was numbered.
    fn note_numbered(&mut self, room: u8)
        ensures { self.new ≡ served self.old room };

    // A batch was told.
    fn note_told(&mut self)
        ensures { self.new ≡ heard self.old };

    // A batch was wished for.
    fn note_wish(&mut self, batch: u16)
        ensures { self.new ≡ wished self.old batch };

    ghost numbering: { (p : Self) (posts : List Posted) (list : List ℕ) → Orders posts list (numbers p posts list) };

    ghost telling: { (p : Self) (posts : List Posted) (list : List ℕ) (room : ℕ) → Orders posts list (tells p posts list room) };
}
