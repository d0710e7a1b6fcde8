// An entry of a journal.

// One write: a base, and the amount that it then had.
#[derive(Clone, Copy, PartialEq, Eq, Debug)]
pub struct Entry {
    pub base: u8,
    pub amount: u32,
}
