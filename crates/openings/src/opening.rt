// The amounts that a house opens with.
ghost use Rattle.std.specs.Prelude.{◌≡◌, false};
ghost use Rattle.lists.specs.Words.{any};
ghost use Rattle.stock.specs.Stock.{over_limit};

// The amounts of the bases at opening, none of them above the limit.
#[derive(Drop)]
pub struct Opening {
    pub(crate) amounts: [u32; 32],
    ghost small: { any over_limit amounts ≡ false },
}
