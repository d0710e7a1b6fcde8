// Books compared with one another.
ghost use Rattle.std.specs.Prelude.{◌≡◌, map};
ghost use Rattle.house.specs.Openings.{same_amounts, all_equal};

use stock::Book;

// Whether two books hold the same amount of each base. Books of two kinds can be compared, and so no `PartialEq`.
fn hold_the_same<B: Book>(left: &B, right: &B) -> bool
    ensures value { result ≡ same_amounts (B.Book.holds left.now) (B.Book.holds right.now) }
{
    (0..32u8).all(|base| left.amount(base) == right.amount(base))
}

// Whether all books hold the amounts of the first.
pub(crate) fn are_equal<B: Book>(books: &[B]) -> bool
    ensures value { result ≡ all_equal (map B.Book.holds books.now) }
{
    let Some(first) = books.first() else {
        return true;
    };
    books.iter().all(|book| hold_the_same(book, first))
}
