use batches::outcome::RunResult;

// What a room tells the others when it releases a batch: the batch, its serializer, and the result of its run.
#[derive(Clone, Copy, PartialEq, Eq, Debug)]
pub struct Announcement {
    pub batch: u16,
    pub serializer: u16,
    pub result: RunResult,
}
