// Sets of bases as 32-bit masks: bit x, counted from the lowest, stands for base x.
#![tactic(auto)]

ghost use Rattle.std.specs.Prelude.{◌≡◌, ◌^◌, ◌<◌, [], ◌∷◌, MatchOption};
ghost use Rattle.lists.specs.Words.{member};
ghost use Rattle.sets.specs.Sets.{bases, size, sized, within, shares};

pub mod rising;

pub use rising::{RisingBases, rising_bases};

// How many bases a set has.
pub fn count_bases(set: u32) -> u32
    ensures { result ≡ size set }
{
    set.count_ones()
}

// Whether a set has one to eight bases.
pub fn is_sized(set: u32) -> bool
    ensures { result ≡ sized set }
{
    let bases = count_bases(set);
    1 <= bases && bases <= 8
}

// Whether a base is in a set.
pub fn has_base(set: u32, base: u8) -> bool
    ensures { result ≡ member base (bases set) }
{
    base < 32 && (set >> base) % 2 == 1
}

// Whether a has no base that b lacks.
pub fn lies_within(a: u32, b: u32) -> bool
    ensures { result ≡ within a b }
{
    a & b == a
}

// Whether a and b have a base in common.
pub fn shares_base(a: u32, b: u32) -> bool
    ensures { result ≡ shares a b }
{
    a & b != 0
}

// The lowest base of a set, and the set without it; none where the set is empty.
pub fn split_lowest(set: u32) -> Option<(u8, u32)>
    ensures { MatchOption result (bases set ≡ []) (λ p. (bases set ≡ p.0 ∷ bases p.1) × (p.0 < 32)) }
{
    if set == 0 {
        return None;
    }
    Some((set.trailing_zeros() as u8, set & (set - 1)))
}
