// Opening, reading, writing and closing a journal.
ghost use Rattle.std.specs.Prelude.{◌≡◌, MatchOption, MatchResult};
ghost use Rattle.stock.specs.Openings.{HandedBack};
ghost use Rattle.stock.specs.Entries.{NoneFrom, LastAt, LastCounts};
ghost use Rattle.stock.specs.Journal.{journal_items, written_entries, journal_holds, journal_cause, JournalOpened, JournalLeaves};

use super::Journal;
use crate::book::Book;
use crate::entry::Entry;
use crate::limits::{check_amount, check_base};
use crate::returned::{Returned, accept};
use refusals::Refusal;

// The least length of a journal's buffer.
const SHORTEST: usize = 64;

// The greatest.
const LONGEST: usize = 4096;

impl Journal {
    // Opens a journal over a buffer of 64 to 4,096 entries, which stay as they are until they are written.
    // Refused for a shorter or longer buffer, then for an opening amount above the limit; the buffer then comes back as it was.
    pub fn open(buffer: Vec<Entry>, opening: &[u32; 32]) -> Result<Journal, Returned<Entry>>
        ensures cases { MatchResult result (JournalOpened buffer opening.now) (HandedBack (journal_cause buffer.items opening.now) buffer) }
    {
        let fits = SHORTEST <= buffer.len() && buffer.len() <= LONGEST;
        let buffer = accept(buffer, fits, opening)?;
        Ok(Journal {
            opening: *opening,
            buffer,
            used: 0,
        })
    }

    // The buffer as it stands.
    pub fn buffer(&self) -> &[Entry]
        ensures { result.now ≡ journal_items self.now }
    {
        self.buffer.as_slice()
    }

    // Ends the journal and hands its buffer back.
    pub fn close(self) -> Vec<Entry>
        ensures { result ≡ self.buffer }
    {
        let Journal {
            opening: _,
            buffer,
            used: _,
        } = self;
        buffer
    }

    // The place of a base's last written entry; none where no written entry has the base.
    pub fn last_entry(&self, base: u8) -> Option<usize>
        ensures { MatchOption result (NoneFrom 0 (written_entries self.now) base) (LastAt (written_entries self.now) base) }
    {
        self.buffer[..self.used]
            .iter()
            .rposition(|entry| entry.base == base)
    }
}

impl Book for Journal {
    ghost holds = { journal_holds };

    ghost leaves = { JournalLeaves };

    ghost sound = { λ j. record { small = j.small; none_above = j.beyond } };

    fn amount(&self, base: u8) -> Result<u32, Refusal> {
        check_base(base)?;
        match self.last_entry(base) {
            Some(place) => Ok(self.buffer[place].amount),
            None => Ok(self.opening[base as usize]),
        }
    }

    fn spare(&self) -> u32 {
        (self.buffer.len() - self.used) as u32
    }

    fn write(&mut self, base: u8, amount: u32) -> Result<(), Refusal> {
        if self.used == self.buffer.len() {
            return Err(Refusal::TooFewSpare);
        }
        check_amount(base, amount)?;
        let place = self.used;
        self.buffer[place] = Entry { base, amount };
        self.used += 1;
        Ok(())
    }
}

// The law of a journal: a base's last entry counts, else its opening amount.
pub fn last_entry_counts()
    ensures { LastCounts }
{}
