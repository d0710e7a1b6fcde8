// What can be done with opening amounts.
ghost use Rattle.std.specs.Prelude.{◌≡◌, MatchResult};
ghost use Rattle.std.specs.Result.{result_err};
ghost use Rattle.lists.specs.Words.{updated};
ghost use Rattle.stock.specs.Stock.{amounts_in};
ghost use Rattle.openings.specs.Amounts.{amounts_of, opening_cause};

use crate::opening::Opening;
use refusals::Refusal;
use stock::limits::check_amount;

impl Opening {
    // No base has any amount.
    pub fn new() -> Opening
        ensures { amounts_of result ≡ (λ _. 0) }
    {
        Opening { amounts: [0; 32] }
    }

    // Notes the amount of a base. A base above 31 or an amount above the limit is refused, and changes nothing.
    pub fn note(&mut self, base: u8, amount: u32) -> Result<(), Refusal>
        ensures refused { result_err result ≡ opening_cause base amount }
        ensures cases { MatchResult result (λ _. amounts_of self.new ≡ updated (amounts_of self.old) base amount) (λ _. self.new ≡ self.old) }
    {
        check_amount(base, amount)?;
        self.amounts[base as usize] = amount;
        Ok(())
    }

    // The amounts, by their bases.
    pub(crate) fn as_array(&self) -> &[u32; 32]
        ensures { result.now ≡ self.now.amounts }
    {
        &self.amounts
    }
}
