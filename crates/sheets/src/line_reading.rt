// Cutting an input that comes in parts into lines, in bounded memory.
ghost use Rattle.std.specs.Prelude.{◌≡◌, ℕ, ◌<◌, ◌≤◌, [], ◌++◌, length, take, IfOk, MatchOption, ◌≢◌, slice_index};

use crate::line_buffer::LineBuffer;
use std::alloc::{AllocError, Global};

// Where the first line feed of a part of the input stands, if it has one.
pub fn line_end(part: &[u8]) -> Option<usize>
    ensures { MatchOption result ((k : ℕ) → k < length part.now → slice_index part.now k ≢ 10)
        (λ end. (end < length part.now) × (slice_index part.now end ≡ 10) × ((k : ℕ) → k < end → slice_index part.now k ≢ 10)) }
{
    part.iter().position(|byte| *byte == b'\n')
}

// The first so many characters of a part, or all of it where it is shorter.
fn front(part: &[u8], most: usize) -> &[u8]
    ensures value { result.now ≡ take most part.now }
    ensures len { length result.now ≤ most }
{
    &part[..part.len().min(most)]
}

impl LineBuffer {
    // A buffer for lines, with all its memory.
    pub fn new(heap: Global) -> Result<LineBuffer, AllocError>
        ensures { IfOk result (λ b. b.text.items ≡ []) }
    {
        let text = Vec::with_capacity(heap, 125)?;
        Ok(LineBuffer { text })
    }

    // The characters of the line so far, at most 125.
    pub fn text(&self) -> &[u8]
        ensures { result.now ≡ self.now.text.items }
    {
        &self.text
    }

    // Begins a new line.
    pub fn clear(&mut self)
        ensures { self.new.text.items ≡ [] }
    {
        self.text.clear();
    }

    // Goes on with the line: its first 125 characters are kept.
    pub fn append(&mut self, part: &[u8])
        ensures { self.new.text.items ≡ take 125 (self.old.text.items ++ part.now) }
    {
        let room = 125 - self.text.len();
        self.text.extend_from_slice(front(part, room)).unwrap();
    }
}
