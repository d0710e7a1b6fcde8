// What a taken frame is answered with, besides its kind. Each kind of reply is a variant: `None` would say that a reply is
// missing, where it is there and has nothing to add.
#[derive(Clone, Copy, PartialEq, Eq, Debug)]
pub enum Reply {
    // nothing more
    Done,
    // an amount
    Amount(u32),
}
