// A room's list of batches.
ghost use Rattle.std.specs.Prelude.{◌≡◌, ◌≤◌, true, vec_capacity};
ghost use Rattle.lists.specs.Words.{all};
ghost use Rattle.rooms.specs.Records.{known};

// A list of batches, in the memory for 256 of them that it has from the start. A wire's lists only grow and are asked often, and
// so have marks; a room's lose batches too, and have none.
#[derive(Drop)]
pub(crate) struct BatchList {
    pub(crate) numbers: Vec<u16>,
    ghost space: { 256 ≤ vec_capacity numbers },
    ghost known: { all known numbers.items ≡ true },
}
