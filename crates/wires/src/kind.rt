ghost use Rattle.std.specs.Prelude.{◌≡◌};
ghost use Rattle.wires.specs.Kinds.{kind_number, KindRead};

use refusals::Refusal;

// The kinds of wires, and the number of each.
#[derive(Clone, Copy, PartialEq, Eq, Debug)]
pub enum WireKind {
    Sequenced = 1,
    Turn,
    Directed,
}

impl From<WireKind> for u8 {
    ghost from_gives = { λ kind number. number ≡ kind_number kind };

    fn from(kind: WireKind) -> u8 {
        kind as u8
    }
}

impl TryFrom<u8> for WireKind {
    type Error = Refusal;

    ghost try_from_gives = { KindRead };

    fn try_from(number: u8) -> Result<WireKind, Refusal> {
        match number {
            1 => Ok(WireKind::Sequenced),
            2 => Ok(WireKind::Turn),
            3 => Ok(WireKind::Directed),
            _ => Err(Refusal::OutOfRange),
        }
    }
}
