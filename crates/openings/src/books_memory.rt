// The memory of a house's books.
ghost use Rattle.std.specs.Prelude.{◌≡◌, ◌≤◌, [], ◌∷◌, map, vec_capacity};
ghost use Rattle.openings.specs.Books.{spare_in};

use crate::book_memory::BookMemory;
use stock::StockBook;

// The memory of the books of a house of up to four rooms, taken before it is opened: for each room what its book lies over,
// tables for rooms 0 and 1 and journals for rooms 2 and 3, and the list of the books.
#[derive(Drop)]
pub struct BooksMemory {
    pub(crate) rooms: [BookMemory; 4],
    pub(crate) books: Vec<StockBook>,
    ghost kinds: { map spare_in rooms ≡ 4096 ∷ 4096 ∷ 1024 ∷ 1024 ∷ [] },
    ghost books_none: { books.items ≡ [] },
    ghost books_room: { 4 ≤ vec_capacity books },
}
