// The steps of a batch.
ghost use Rattle.std.specs.Prelude.{◌≡◌};
ghost use Rattle.batches.specs.Batches.{StepRead, step_right, amount_right};

use refusals::Refusal;
use sets::has_base;

// The greatest amount of a step, in grams.
const LARGEST_STEP: u32 = 1_000_000;

// One step of a batch, in grams.
#[derive(Clone, Copy, PartialEq, Eq, Debug)]
pub enum Step {
    // adds to a base
    Add { base: u8, amount: u32 },
    // draws from a base
    Draw { base: u8, amount: u32 },
    // moves from one base to another
    Move { from: u8, to: u8, amount: u32 },
}

// The four numbers that a step is written as: its kind, two bases, of which the second is 0 but for a move, and its
// amount.
#[derive(Clone, Copy, PartialEq, Eq, Debug)]
pub struct StepNumbers {
    pub kind: u8,
    pub first: u8,
    pub second: u8,
    pub amount: u32,
}

impl TryFrom<StepNumbers> for Step {
    type Error = Refusal;

    ghost try_from_gives = { StepRead };

    // The step that is written as these numbers.
    fn try_from(numbers: StepNumbers) -> Result<Step, Refusal> {
        let StepNumbers {
            kind,
            first,
            second,
            amount,
        } = numbers;
        match (kind, second) {
            (1, 0) => Ok(Step::Add {
                base: first,
                amount,
            }),
            (2, 0) => Ok(Step::Draw {
                base: first,
                amount,
            }),
            (3, _) => Ok(Step::Move {
                from: first,
                to: second,
                amount,
            }),
            _ => Err(Refusal::StepRule),
        }
    }
}

impl Step {
    // Whether the step keeps the rule of the steps of a batch for a set.
    pub fn keeps_rule(self, set: u32) -> bool
        ensures value { result ≡ step_right set self }
    {
        match self {
            Step::Add { base, amount } | Step::Draw { base, amount } => {
                has_base(set, base) && amount_keeps_rule(amount)
            }
            Step::Move { from, to, amount } => {
                has_base(set, from) && has_base(set, to) && from != to && amount_keeps_rule(amount)
            }
        }
    }
}

// Whether a step may have an amount.
fn amount_keeps_rule(amount: u32) -> bool
    ensures value { result ≡ amount_right amount }
{
    (1..=LARGEST_STEP).contains(&amount)
}
