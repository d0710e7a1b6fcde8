// How much a wire carries.

// How many rooms there are, numbered from 0.
pub(crate) const ROOMS: u8 = 8;

// How many batches are posted at most, numbered from 0.
pub(crate) const BATCHES: usize = 256;
