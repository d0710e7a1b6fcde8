// The one interface of stock books: questions for an amount and for the spare entries, and a write.
ghost use Rattle.std.specs.Prelude.{◌≡◌, ℕ, OnOk};
ghost use Rattle.stock.specs.Stock.{Stock, Sound, Writing, amount_of};

use refusals::Refusal;

// A book of stock, whatever it lies over. Its meaning is what it holds: the amount of each base, and the spare entries.
pub trait Book {
    // What the book holds.
    ghost holds: { Self → Stock };

    // What a taken write leaves of the book, its buffer included: the book before, the book after, the base, the amount.
    ghost leaves: { Self → Self → ℕ → ℕ → Type 0 };

    // The amount of a base, refused for a base above 31.
    fn amount(&self, base: u8) -> Result<u32, Refusal>
        ensures { result ≡ amount_of (holds self.now) base };

    // How many entries are spare.
    fn spare(&self) -> u32
        ensures { result ≡ (holds self.now).spare };

    // Replaces the amount of a base. Refused where nothing is spare, then for a base above 31 or an amount above
    // 1,000,000,000; a refusal changes nothing.
    fn write(&mut self, base: u8, amount: u32) -> Result<(), Refusal>
        ensures cases { Writing holds self.old self.new base amount result }
        ensures after { OnOk result (leaves self.old self.new base amount) };

    // Every amount is within the limit, and what is no base has none.
    ghost sound: { (b : Self) → Sound (holds b) };
}
