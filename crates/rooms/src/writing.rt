// What release and install share: writing a set's amounts to a book, and moving a batch to the installed list.
ghost use Rattle.std.specs.Prelude.{◌≡◌, true, ◌||◌, None};
ghost use Rattle.lists.specs.Words.{member};
ghost use Rattle.sets.specs.Sets.{size};
ghost use Rattle.stock.specs.Stock.{Stock, Spends};
ghost use Rattle.stock.specs.BySet.{write_set_cause};
ghost use Rattle.agreement.specs.Rooms.{book_written, too_few, room_install};
ghost use Rattle.rooms.specs.Views.{room_of, works_in};

use crate::room::Room;
use crate::works::Works;
use sets::count_bases;
use stock::Book;
use stock::by_set::write_set;
use wire::Wire;

// Whether a book has fewer spare entries than a batch has bases.
pub(crate) fn has_too_few<W: Wire, B: Book>(works: &Works<W>, book: &B, batch: u16) -> bool
    ensures { result ≡ too_few (works_in works.now) (B.Book.holds book.now) batch }
{
    book.spare() < count_bases(works.set_of(batch))
}

// Writes a set's amounts to a book that takes them.
pub(crate) fn write_amounts<B: Book>(book: &mut B, set: u32, amounts: &[u32; 8])
    requires { write_set_cause (B.Book.holds book.old) set amounts.now ≡ None }
    ensures after { B.Book.holds book.new ≡ book_written set amounts.now (B.Book.holds book.new).spare (B.Book.holds book.old) }
    ensures spare { Spends (size set) (B.Book.holds book.old).spare (B.Book.holds book.new).spare }
{
    write_set(book, set, amounts).unwrap();
}

impl Room {
    // Moves a batch from the waiting or the settled list to the end of the installed list.
    pub(crate) fn put_away(&mut self, batch: u16)
        requires { (member batch (room_of self.old).waiting || member batch (room_of self.old).settled) ≡ true }
        ensures after { room_of self.new ≡ room_install (room_of self.old) batch }
        ensures number { self.new.number ≡ self.old.number }
    {
        self.waiting.take_out(batch);
        self.settled.take_out(batch);
        self.installed.append(batch);
    }
}
