// One type that is a book of either kind, so that the rooms of one house can mix them.
ghost use Rattle.stock.specs.StockBook.{book_holds, BookLeaves};
ghost use Rattle.stock.specs.declared.stock_book.StockBook.TheVariants.{Table as a_table, Journal as a_journal};
ghost use Rattle.stock.specs.Table.{table_items};
ghost use Rattle.stock.specs.Beyond.{amounts_in-none};

use crate::book::Book;
use crate::journal::Journal;
use crate::table::Table;
use refusals::Refusal;

// A table or a journal. An enum that hands each call on, since the gate refuses a function that hands out a `dyn`.
#[derive(Drop)]
pub enum StockBook {
    Table(Table),
    Journal(Journal),
}

impl Book for StockBook {
    ghost holds = { book_holds };

    ghost leaves = { BookLeaves };

    ghost sound = { elim [
      | a_table t ↦ record { small = t.small; none_above = amounts_in-none (table_items t) }
      | a_journal j ↦ record { small = j.small; none_above = j.beyond }
    ] };

    fn amount(&self, base: u8) -> Result<u32, Refusal> {
        match self {
            StockBook::Table(table) => table.amount(base),
            StockBook::Journal(journal) => journal.amount(base),
        }
    }

    fn spare(&self) -> u32 {
        match self {
            StockBook::Table(table) => table.spare(),
            StockBook::Journal(journal) => journal.spare(),
        }
    }

    fn write(&mut self, base: u8, amount: u32) -> Result<(), Refusal> {
        match self {
            StockBook::Table(table) => table.write(base, amount),
            StockBook::Journal(journal) => journal.write(base, amount),
        }
    }
}
