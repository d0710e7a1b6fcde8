// The amounts of a whole set of bases: written to a book, read from it, and packed by rising base.
ghost use Rattle.std.specs.Prelude.{◌≡◌, ◌≤◌, take, None};
ghost use Rattle.refusals.specs.Causes.{answer};
ghost use Rattle.sets.specs.Sets.{size};
ghost use Rattle.stock.specs.Stock.{amounts_in, packed};
ghost use Rattle.stock.specs.BySet.{write_set_cause, SetWritten, SetWriting, only, LaidRight, PackedBack};

use crate::book::Book;
use crate::limits::any_over_limit;
use refusals::Refusal;
use sets::{count_bases, is_sized, rising_bases};

// Whether a book takes the amounts of a set's bases, and why not. Set and amounts stand apart here and below: a caller has
// the one from a batch and the others from an announcement, and would pair them for this call alone.
pub fn check_set<B: Book>(book: &B, set: u32, amounts: &[u32; 8]) -> Result<(), Refusal>
    ensures { result ≡ answer (write_set_cause (B.Book.holds book.now) set amounts.now) tt }
{
    if !is_sized(set) {
        return Err(Refusal::SetSize);
    }
    let count = count_bases(set);
    if book.spare() < count {
        return Err(Refusal::TooFewSpare);
    }
    if any_over_limit(&amounts[0..count as usize]) {
        return Err(Refusal::OverLimit);
    }
    Ok(())
}

// Writes the amounts of a set's bases, one write a base by rising base. Refused before any write, and then nothing
// changes, for a set that does not have one to eight bases, for fewer spare entries than bases, then for an amount above
// the limit.
pub fn write_set<B: Book>(book: &mut B, set: u32, amounts: &[u32; 8]) -> Result<(), Refusal>
    ensures { SetWriting B.Book.holds B.Book.leaves book.old book.new set amounts.now result }
{
    check_set(book, set, amounts)?;
    write_each(book, set, amounts);
    Ok(())
}

// Writes the amounts of a set's bases to a book that takes them.
fn write_each<B: Book>(book: &mut B, set: u32, amounts: &[u32; 8])
    requires { write_set_cause (B.Book.holds book.old) set amounts.now ≡ None }
    ensures { SetWritten B.Book.holds B.Book.leaves book.old book.new set amounts.now }
{
    for (base, amount) in rising_bases(set).zip(amounts) {
        book.write(base, *amount).unwrap();
    }
}

// The amount of every base of a set, at the base's place among 32, and 0 elsewhere.
pub fn read_set<B: Book>(book: &B, set: u32) -> [u32; 32]
    ensures { amounts_in result ≡ only set (B.Book.holds book.now).amounts }
{
    let mut amounts = [0; 32];
    for base in rising_bases(set) {
        amounts[base as usize] = book.amount(base).unwrap();
    }
    amounts
}

// The amounts of a set's bases by rising base, and 0 after them; of a set of more than eight bases, those of the first eight.
pub fn pack(set: u32, amounts: &[u32; 32]) -> [u32; 8]
    ensures value { result ≡ take 8 (packed set (amounts_in amounts.now)) }
    ensures whole { size set ≤ 8 → result ≡ packed set (amounts_in amounts.now) }
{
    let mut packed = [0; 8];
    // by the place, since a proof knows nothing of what is written through an adapter of `iter_mut`
    for (place, base) in (0..8).zip(rising_bases(set)) {
        packed[place] = amounts[base as usize];
    }
    packed
}

// The law of laid amounts: each base of the set gets the value at its place, and every other amount stays.
pub fn laid_in_place()
    ensures { LaidRight }
{}

// The law of packed amounts: laid over any others, they give the set's bases what they had.
pub fn packed_come_back()
    ensures { PackedBack }
{}
