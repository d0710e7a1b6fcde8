// The buffer that a book is opened over, and what comes back where it is not.
ghost use Rattle.std.specs.Prelude.{◌≡◌, None, MatchResult};
ghost use Rattle.stock.specs.Openings.{HandedBack, opening_cause};

use crate::limits::any_over_limit;
use refusals::Refusal;

// The cause, and the buffer as it was handed in.
#[derive(Drop)]
pub struct Returned<T> {
    pub cause: Refusal,
    pub buffer: Vec<T>,
}

// The buffer to open a book over. It is returned where its length does not fit the book, then where an opening amount is
// above the limit.
pub(crate) fn accept<T>(
    buffer: Vec<T>,
    fits: bool,
    opening: &[u32; 32],
) -> Result<Vec<T>, Returned<T>>
    ensures { MatchResult result (λ accepted. (opening_cause fits opening.now ≡ None) × (accepted ≡ buffer)) (HandedBack (opening_cause fits opening.now) buffer) }
{
    let cause = if !fits {
        Refusal::BufferLength
    } else if any_over_limit(opening) {
        Refusal::OverLimit
    } else {
        return Ok(buffer);
    };
    Err(Returned { cause, buffer })
}
