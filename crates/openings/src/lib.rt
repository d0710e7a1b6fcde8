// What a house opens with: the amounts of its bases, and the books of its rooms over memory that is taken before.
#![tactic(auto)]

pub mod book_memory;
pub mod books_memory;
pub mod buffer;
mod noting;
pub mod opening;
mod opening_books;

pub use books_memory::BooksMemory;
pub use opening::Opening;
