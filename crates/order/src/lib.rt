// The house order and the serial run. The definitions stand in specs/; each function here does nothing and is there for
// its contract, a law about them.
#![tactic(auto)]

ghost use Rattle.order.specs.Laws.{OrderIsItsLaw, NumberingAppends, LateInsertion, ChoicesAgree};
ghost use Rattle.order.specs.Examples.{WorkedExamples};

// What the walk places and before what, as a relation, and that this fixes the order.
pub fn order_is_its_law()
    ensures { OrderIsItsLaw }
{}

// Numbering more batches only appends to the house order.
pub fn numbering_appends()
    ensures { NumberingAppends }
{}

// A batch that shares no base with those after it might as well have run last.
pub fn late_insertion()
    ensures { LateInsertion }
{}

// Two closed choices of batches leave the same amount of a base on whose batches they agree.
pub fn choices_agree()
    ensures { ChoicesAgree }
{}

// The twelve worked examples.
pub fn worked_examples()
    ensures { WorkedExamples }
{}
