// The calls of a house as values, and what they answer.
use batches::{Outcome, SealedBatch};
use refusals::Refusal;

// A call of a house: the seven calls, a wish, and two questions.
#[derive(Drop)]
pub enum Call {
    Post { room: u8, batch: SealedBatch },
    Number,
    Hear { room: u8 },
    Settle { room: u8 },
    Run { room: u8, batch: u16 },
    Release { room: u8, batch: u16 },
    Install { room: u8, sender: u8 },
    Wish { batch: u16 },
    Amount { room: u8, base: u8 },
    Pick { room: u8 },
}

// What a call answers. A refusal is one of the answers, as the definitions of the calls have it.
#[derive(Clone, Copy)]
pub enum Answer {
    Refused(Refusal),
    // a release or a wish
    Done,
    // a post, a number, a hear or an install: the batch
    Batch(u16),
    // a settle: the batch, how many went ahead, and how many marks were thrown
    Settled { batch: u16, ahead: u16, thrown: u16 },
    // a run, which a rule of the project has answer so: the outcome, and the place of the step that failed, counted from 1, or 0
    Ran { outcome: Outcome, step: u8 },
    // an amount, in grams
    Amount(u32),
    // a pick: a batch, or none
    Picked(Option<u16>),
}
