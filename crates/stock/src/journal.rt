// The journal: a book over a buffer of entries.
ghost use Rattle.std.specs.Prelude.{◌≡◌, ℕ, ◌<◌, ◌≤◌, take, vec_len};
ghost use Rattle.stock.specs.Stock.{amounts_in};
ghost use Rattle.stock.specs.Entries.{replayed};

use crate::entry::Entry;

pub mod calls;

// A book that keeps the opening amounts and writes one entry after another into its buffer; the first `used` are written.
// A rule of the project: a book lies over the buffer that is handed in, and so no `Vec` that grows.
#[derive(Drop)]
pub struct Journal {
    opening: [u32; 32],
    buffer: Vec<Entry>,
    used: usize,
    ghost long: { 64 ≤ vec_len buffer },
    ghost short: { vec_len buffer ≤ 4096 },
    ghost within: { used ≤ vec_len buffer },
    ghost small: { ((x : ℕ) → replayed (take used buffer.items) (amounts_in opening) x ≤ 1000000000) },
    ghost beyond: { ((x : ℕ) → 31 < x → replayed (take used buffer.items) (amounts_in opening) x ≡ 0) },
}
