ghost use Rattle.std.specs.Prelude.{◌<◌};

// The number of one of the eight rooms.
#[derive(Clone, Copy)]
pub(crate) struct RoomNumber {
    pub(crate) number: u8,
    ghost small: { number < 8 },
}
