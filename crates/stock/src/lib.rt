// Stock books: how much of each base a room's copy of the stock shows.
#![tactic(auto)]

pub mod book;
pub mod by_set;
pub mod entry;
pub mod journal;
pub mod limits;
pub mod returned;
pub mod stock_book;
pub mod table;

pub use book::Book;
pub use entry::Entry;
pub use journal::Journal;
pub use returned::Returned;
pub use stock_book::StockBook;
pub use table::Table;
