// Taking the memory of a house's books, and opening the books over it.
ghost use Rattle.std.specs.Prelude.{◌≡◌, ◌≤◌, map, min};
ghost use Rattle.lists.specs.Words.{rising};
ghost use Rattle.stock.specs.StockBook.{book_holds};
ghost use Rattle.openings.specs.Amounts.{amounts_of};
ghost use Rattle.openings.specs.Books.{new_book, spare_in};

use crate::book_memory::BookMemory;
use crate::books_memory::BooksMemory;
use crate::buffer::Buffer;
use crate::opening::Opening;
use std::alloc::{AllocError, Global};
use stock::{Entry, Journal, StockBook, Table};

impl<T: Copy, const N: usize> Buffer<T, N> {
    // Takes the memory of a buffer, filled with one element.
    fn filled(heap: Global, element: T) -> Result<Buffer<T, N>, AllocError> {
        let elements = vec![in heap; element; N]?;
        Ok(Buffer { elements })
    }
}

impl BookMemory {
    // Opens the book with the opening amounts. Two arms, since opening is no call of `Book`: each kind has its own buffer.
    fn open(self, opening: &Opening) -> StockBook
        ensures { book_holds result ≡ record { amounts = amounts_of opening.now; spare = spare_in self } }
    {
        let amounts = opening.as_array();
        match self {
            BookMemory::Table(buffer) => {
                let table = Table::open(buffer.elements, amounts).unwrap();
                StockBook::Table(table)
            }
            BookMemory::Journal(buffer) => {
                let journal = Journal::open(buffer.elements, amounts).unwrap();
                StockBook::Journal(journal)
            }
        }
    }
}

impl BooksMemory {
    // Takes the memory of four books, or tells that there is not enough. What it has then is what the type says.
    pub fn take(heap: Global) -> Result<BooksMemory, AllocError> {
        let unused = Entry { base: 0, amount: 0 };
        Ok(BooksMemory {
            rooms: [
                BookMemory::Table(Buffer::filled(heap, 0)?),
                BookMemory::Table(Buffer::filled(heap, 0)?),
                BookMemory::Journal(Buffer::filled(heap, unused)?),
                BookMemory::Journal(Buffer::filled(heap, unused)?),
            ],
            books: Vec::with_capacity(heap, 4)?,
        })
    }

    // Opens the books of so many rooms, all with the same amounts, and of four where there are more.
    pub fn open_books(self, rooms: u8, opening: &Opening) -> Vec<StockBook>
        ensures value { map book_holds result.items ≡ map (new_book (amounts_of opening.now)) (rising 0 (min rooms 4)) }
        ensures whole { rooms ≤ 4 → map book_holds result.items ≡ map (new_book (amounts_of opening.now)) (rising 0 rooms) }
    {
        let mut books = self.books;
        for memory in self.rooms.into_iter().take(rooms as usize) {
            books.push_reserved(memory.open(opening));
        }
        books
    }
}
