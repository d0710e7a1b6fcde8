// Performing a list of calls on a house of its own.
ghost use Rattle.std.specs.Prelude.{◌≡◌, ◌≤◌, [], IfOk, vec_len, vec_capacity};
ghost use Rattle.wire.specs.Wire.{new_wire};
ghost use Rattle.house.specs.Views.{parts_of};
ghost use Rattle.house.specs.Performing.{MakesAll, Performing};

use crate::call::{Answer, Call};
use crate::house::House;
use crate::memory::HouseMemory;
use crate::performance::{Performance, Unperformed, WhyUnperformed};
use crate::unopened::Unopened;
use plan::SealedPlan;
use std::alloc::{AllocError, Global};
use stock::Book;
use wire::Wire;

// Opens a house of a sealed plan over a new wire, makes every call of the list, and gives the house and the answers. The calls
// are performed as they are defined, and the house keeps the promise. Where no house is opened, what was handed over comes back as it was.
pub fn perform<W: Wire + Drop, B: Book + Drop>(
    heap: Global,
    plan: SealedPlan,
    books: Vec<B>,
    calls: Vec<Call>,
) -> Result<Performance<W, B>, Unperformed<B>>
    ensures cases { Performing W.Wire.meaning B.Book.holds plan books calls result }
{
    let Ok((wire, memory, mut answers)) = reserve::<W>(heap, calls.len()) else {
        return Err(Unperformed {
            plan,
            books,
            calls,
            why: WhyUnperformed::NoMemory,
        });
    };
    match House::open(plan, wire, books, memory) {
        Ok(mut house) => {
            make_all(&mut house, calls, &mut answers);
            Ok(Performance { house, answers })
        }
        Err(
            Unopened {
                plan,
                books,
                why,
                ..
            },
        ) => Err(Unperformed {
            plan,
            books,
            calls,
            why: WhyUnperformed::Unopened(why),
        }),
    }
}

// All the memory for a house and the answers of a number of calls: a new wire, the rooms' memory, and space for the answers.
fn reserve<W: Wire + Drop>(
    heap: Global,
    calls: usize,
) -> Result<(W, HouseMemory, Vec<Answer>), AllocError>
    ensures wire { IfOk result (λ m. W.Wire.meaning m.0 ≡ new_wire) }
    ensures empty { IfOk result (λ m. m.2.items ≡ []) }
    ensures space { IfOk result (λ m. calls ≤ vec_capacity m.2) }
{
    let wire = W::open(heap)?;
    let memory = HouseMemory::reserve(heap)?;
    let answers = Vec::with_capacity(heap, calls)?;
    Ok((wire, memory, answers))
}

// Makes every call of the list in order.
fn make_all<W: Wire, B: Book>(house: &mut House<W, B>, calls: Vec<Call>, answers: &mut Vec<Answer>)
    requires empty { answers.old.items ≡ [] }
    requires space { vec_len calls ≤ vec_capacity answers.old }
    ensures after { MakesAll (parts_of W.Wire.meaning B.Book.holds house.old) calls.items answers.new.items (parts_of W.Wire.meaning B.Book.holds house.new) }
{
    for call in calls {
        answers.push_reserved(house.call(call));
    }
}
