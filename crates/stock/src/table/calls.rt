// Opening, reading, writing and closing a table.
ghost use Rattle.std.specs.Prelude.{◌≡◌, MatchResult};
ghost use Rattle.stock.specs.Openings.{HandedBack};
ghost use Rattle.stock.specs.Beyond.{amounts_in-none};
ghost use Rattle.stock.specs.Table.{table_items, table_holds, table_cause, TableOpened, TableLeaves};

use super::Table;
use crate::book::Book;
use crate::limits::{BASES, check_amount, check_base};
use crate::returned::{Returned, accept};
use refusals::Refusal;

// The spare entries of a table, at any time.
const SPARE: u32 = 4096;

impl Table {
    // Opens a table over a buffer of at least 32 amounts: the first 32 become the opening ones, the rest stays.
    // Refused for a shorter buffer, then for an opening amount above the limit; the buffer then comes back as it was.
    pub fn open(buffer: Vec<u32>, opening: &[u32; 32]) -> Result<Table, Returned<u32>>
        ensures cases { MatchResult result (TableOpened buffer.items opening.now) (HandedBack (table_cause buffer.items opening.now) buffer) }
    {
        let fits = buffer.len() >= BASES;
        let mut buffer = accept(buffer, fits, opening)?;
        buffer.as_mut_slice()[0..BASES].copy_from_slice(opening);
        Ok(Table { buffer })
    }

    // The buffer as it stands.
    pub fn buffer(&self) -> &[u32]
        ensures { result.now ≡ table_items self.now }
    {
        self.buffer.as_slice()
    }

    // Ends the table and hands its buffer back.
    pub fn close(self) -> Vec<u32>
        ensures { result ≡ self.buffer }
    {
        let Table { buffer } = self;
        buffer
    }
}

impl Book for Table {
    ghost holds = { table_holds };

    ghost leaves = { TableLeaves };

    ghost sound = { λ t. record { small = t.small; none_above = amounts_in-none (table_items t) } };

    fn amount(&self, base: u8) -> Result<u32, Refusal> {
        check_base(base)?;
        Ok(self.buffer[base as usize])
    }

    fn spare(&self) -> u32 {
        SPARE
    }

    fn write(&mut self, base: u8, amount: u32) -> Result<(), Refusal> {
        check_amount(base, amount)?;
        self.buffer[base as usize] = amount;
        Ok(())
    }
}
