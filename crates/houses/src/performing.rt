// Performing a list of calls on a house of its own, over a wire of any policy and books of both kinds.
ghost use Rattle.stock.specs.StockBook.{book_holds};
ghost use Rattle.house.specs.Performing.{Performing};
ghost use Rattle.houses.specs.Meanings.{wire_meaning};

use house::{Call, Performance, Unperformed, perform};
use plan::SealedPlan;
use std::alloc::Global;
use stock::StockBook;
use wires::PolicyWire;
use wires::policy::Policy;

// Performs a list of calls on a house whose wire goes by a policy.
pub fn perform_by<P: Policy + Drop>(
    heap: Global,
    plan: SealedPlan,
    books: Vec<StockBook>,
    calls: Vec<Call>,
) -> Result<Performance<PolicyWire<P>, StockBook>, Unperformed<StockBook>>
    ensures { Performing wire_meaning book_holds plan books calls result }
{
    perform::<PolicyWire<P>, StockBook>(heap, plan, books, calls)
}
