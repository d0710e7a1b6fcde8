ghost use Rattle.std.specs.Prelude.{◌≡◌, ℕ, ◌≤◌, false, map, length, vec_len, vec_capacity, slice_index_or};
ghost use Rattle.wire.specs.Calls.{Sound};
ghost use Rattle.wires.specs.Kept.{wire_of, announced_in, trues};
ghost use Rattle.wires.specs.Parts.{numbers_of, posted_of, marks_of, kept_in, announced_by};

use crate::batch_list::BatchList;
use crate::page::Page;
use crate::post::Post;

// Everything that a wire keeps but the choice: the posted batches, the definitive list, and a page for each of eight rooms. The
// pages stand in a `Vec`, for each may want for memory: an array made by a closure would need a clause on it, no plainer.
#[derive(Drop)]
pub struct Ledger {
    pub(crate) posts: Vec<Post>,
    pub(crate) definitive: BatchList,
    pub(crate) pages: Vec<Page>,
    ghost place: { 256 ≤ vec_capacity posts },
    ghost eight: { vec_len pages ≡ 8 },
    ghost sound: { ∥ Sound (wire_of (map posted_of posts.items) (numbers_of definitive) (kept_in pages.items)) ∥₁ },
    ghost marked: { (b : ℕ) → slice_index_or (marks_of posts.items) b false ≡ announced_in (announced_by pages.items) b },
    ghost counted: { (sender : ℕ) → length (announced_by pages.items sender) ≤ trues (marks_of posts.items) },
}
