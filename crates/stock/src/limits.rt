// The bounds that stock keeps: how many bases there are, and the greatest amount of one.
ghost use Rattle.std.specs.Prelude.{◌≡◌};
ghost use Rattle.lists.specs.Words.{any};
ghost use Rattle.refusals.specs.Causes.{answer};
ghost use Rattle.stock.specs.Stock.{over_limit, base_cause, amount_cause};

use refusals::Refusal;

// How many bases there are, numbered from 0.
pub const BASES: usize = 32;

// The last base.
pub const LAST_BASE: u8 = 31;

// The greatest amount of a base, in grams.
pub const LIMIT: u32 = 1_000_000_000;

// Whether one of the amounts is above the limit.
pub fn any_over_limit(amounts: &[u32]) -> bool
    ensures { result ≡ any over_limit amounts.now }
{
    amounts.iter().any(|amount| *amount > LIMIT)
}

// Refuses what is no base.
pub fn check_base(base: u8) -> Result<(), Refusal>
    ensures { result ≡ answer (base_cause base) tt }
{
    if base > LAST_BASE {
        return Err(Refusal::OverLimit);
    }
    Ok(())
}

// Refuses what is no base, and an amount above the limit.
pub fn check_amount(base: u8, amount: u32) -> Result<(), Refusal>
    ensures { result ≡ answer (amount_cause base amount) tt }
{
    if base > LAST_BASE || amount > LIMIT {
        return Err(Refusal::OverLimit);
    }
    Ok(())
}
