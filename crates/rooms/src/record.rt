// What a room keeps of one batch.
use batches::RunResult;

// The record of a batch: the result of its run, while it waits for its release, and its serializer, once it is settled:
// until then 0, as the definitions have it, for a release reads it of settled batches alone.
#[derive(Clone, Copy)]
pub struct Record {
    pub mark: Option<RunResult>,
    pub serializer: u16,
}

// The record of a batch that is neither run nor settled.
pub(crate) const BLANK: Record = Record {
    mark: None,
    serializer: 0,
};
