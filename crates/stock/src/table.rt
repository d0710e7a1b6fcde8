// The table: a book over a buffer of amounts.
ghost use Rattle.std.specs.Prelude.{ℕ, ◌≤◌, vec_len};
ghost use Rattle.stock.specs.Stock.{amounts_in};

pub mod calls;

// A book whose amounts stand first in its buffer, by their bases. The rest of the buffer is not touched.
#[derive(Drop)]
pub struct Table {
    buffer: Vec<u32>,
    ghost long: { 32 ≤ vec_len buffer },
    ghost small: { ((x : ℕ) → amounts_in buffer.items x ≤ 1000000000) },
}
