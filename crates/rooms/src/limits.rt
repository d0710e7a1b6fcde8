// How much a room holds.

// As many batches as are ever posted.
pub(crate) const BATCHES: usize = 256;
