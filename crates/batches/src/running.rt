// The rule of a run, in code: 32 amounts in an array, changed step by step.
ghost use Rattle.std.specs.Prelude.{◌≡◌, ◌+◌, ◌-◌, ◌<◌, ◌≤◌, true, length, if◌then◌else◌, Ok, Err, MatchResult, OnErr, nat_lt};
ghost use Rattle.lists.specs.Words.{all, updated};
ghost use Rattle.stock.specs.Stock.{amounts_in};
ghost use Rattle.batches.specs.declared.outcome.Failure.TheVariants.{Short, Over};
ghost use Rattle.batches.specs.declared.outcome.Outcome.TheVariants.{Done};
ghost use Rattle.batches.specs.Batches.{step_low};
ghost use Rattle.batches.specs.Runs.{Ran, step_outcome, step_after, run_from, failed_outcome, ran};

use crate::outcome::{Failed, Failure};
use crate::step::Step;
use stock::limits::LIMIT;

// Makes steps in order. Where every step is done the amounts are those after them, else they are as they were.
pub(crate) fn make_steps(steps: &[Step], amounts: &mut [u32; 32]) -> Result<(), Failed>
    requires few { length steps.now ≤ 6 }
    requires low { all step_low steps.now ≡ true }
    ensures value { ran result (amounts_in amounts.new) ≡ run_from steps.now 0 (amounts_in amounts.old) (amounts_in amounts.old) }
    ensures same { OnErr result (amounts.new ≡ amounts.old) }
{
    let before = *amounts;
    for (place, step) in steps.iter().enumerate() {
        if let Err(failure) = make_step(*step, amounts) {
            *amounts = before;
            return Err(Failed {
                step: place as u8 + 1,
                failure,
            });
        }
    }
    Ok(())
}

// Makes one step. Where it is done the amounts are those after it.
fn make_step(step: Step, amounts: &mut [u32; 32]) -> Result<(), Failure>
    requires { step_low step ≡ true }
    ensures { MatchResult result (λ _. (step_outcome step (amounts_in amounts.old) ≡ Done) × (amounts_in amounts.new ≡ step_after step (amounts_in amounts.old))) (λ failure. step_outcome step (amounts_in amounts.old) ≡ failed_outcome failure) }
{
    match step {
        Step::Add { base, amount } => {
            let sum = sum_within_limit(held(amounts, base), amount)?;
            put(amounts, base, sum);
        }
        Step::Draw { base, amount } => {
            let rest = drawn(held(amounts, base), amount)?;
            put(amounts, base, rest);
        }
        Step::Move { from, to, amount } => {
            let rest = drawn(held(amounts, from), amount)?;
            let sum = sum_within_limit(held(amounts, to), amount)?;
            put(amounts, from, rest);
            put(amounts, to, sum);
        }
    }
    Ok(())
}

// What is left of an amount where some is drawn; short where that is more than there is.
fn drawn(there: u32, amount: u32) -> Result<u32, Failure>
    ensures { result ≡ (if nat_lt there amount then Err Short else Ok (there - amount)) }
{
    there.checked_sub(amount).ok_or(Failure::Short)
}

// What two amounts come to; over where that passes 1,000,000,000.
fn sum_within_limit(there: u32, amount: u32) -> Result<u32, Failure>
    ensures { result ≡ (if nat_lt 1000000000 (there + amount) then Err Over else Ok (there + amount)) }
{
    there
        .checked_add(amount)
        .filter(|sum| *sum <= LIMIT)
        .ok_or(Failure::Over)
}

// The amount of a base. A base is a number here and below: a type of its own would serve these two functions alone, and no
// plainer.
fn held(amounts: &[u32; 32], base: u8) -> u32
    requires { base < 32 }
    ensures { result ≡ amounts_in amounts.now base }
{
    amounts[base as usize]
}

// Replaces the amount of a base.
fn put(amounts: &mut [u32; 32], base: u8, amount: u32)
    requires { base < 32 }
    ensures { amounts_in amounts.new ≡ updated (amounts_in amounts.old) base amount }
{
    amounts[base as usize] = amount;
}
