ghost use Rattle.std.specs.Prelude.{◌≡◌, ℕ, ◌≤◌, false, vec_len, vec_capacity, slice_index_or};
ghost use Rattle.lists.specs.Words.{member};

// A list of batch numbers below 256, with a mark for each number that tells whether it is there: an index that answers in
// one step, where a set of the library would ask for memory at an insert.
#[derive(Drop)]
pub struct BatchList {
    pub(crate) numbers: Vec<u16>,
    pub(crate) marks: Vec<bool>,
    ghost place: { 256 ≤ vec_capacity numbers },
    ghost table: { vec_len marks ≡ 256 },
    ghost marked: { (b : ℕ) → slice_index_or marks.items b false ≡ member b numbers.items },
}
