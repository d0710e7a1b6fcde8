// The walk over a set's bases.
ghost use Rattle.std.specs.Prelude.{◌≡◌};
ghost use Rattle.std.specs.Iterator.{YieldsFirst, item_count};
ghost use Rattle.sets.specs.Sets.{bases};
ghost use Rattle.sets.specs.Rising.{bases_left};

use crate::split_lowest;

// The bases of a set that a walk from the lowest on has left.
#[derive(Clone, Copy, Debug)]
pub struct RisingBases {
    left: u32,
}

impl Iterator for RisingBases {
    type Item = u8;

    ghost next_gives = { YieldsFirst bases_left };

    ghost remaining = { item_count bases_left };

    fn next(&mut self) -> Option<u8> {
        let (base, rest) = split_lowest(self.left)?;
        self.left = rest;
        Some(base)
    }
}

// The bases of a set, rising.
pub fn rising_bases(set: u32) -> RisingBases
    ensures { bases_left result ≡ bases set }
{
    RisingBases { left: set }
}
