// The state of a house, its calls, and the promise over every list of calls. The definitions stand in specs/; each
// function here does nothing and is there for its contract, a theorem about them.
#![tactic(auto)]

ghost use Rattle.std.specs.Prelude.{ℕ};
ghost use Rattle.agreement.specs.Answering.{Answered};
ghost use Rattle.agreement.specs.Calls.{Call};
ghost use Rattle.agreement.specs.Promises.{Always, Promise, BooksSerial, InstalledInOrder, Quiet, Complete, ClosedForm, SettlesCount, Bounded, PartsRight};
ghost use Rattle.agreement.specs.Tellings.{Told};
ghost use Rattle.agreement.specs.WorkedShift.{WorkedShift};

// The promise whole: every list of calls on a house keeps it.
pub fn promise_is_kept()
    ensures { Always Promise }
{}

// Each book holds what its room's installed batches leave, run singly in the house order.
pub fn books_hold_the_serial_run()
    ensures { Always (λ g l h. BooksSerial g h) }
{}

// Installed batches that share a base stand in the house order, and none is missing before one.
pub fn rooms_install_in_house_order()
    ensures { Always (λ g l h. InstalledInOrder g h) }
{}

// In a quiet house every batch is installed everywhere, and all books are equal.
pub fn quiet_houses_are_complete()
    ensures { Always (λ g l h. Quiet g h → Complete g h) }
{}

// The lists of a house are what its calls answered.
pub fn lists_are_what_was_answered()
    ensures { Always Told }
{}

// Every call has exactly one kind of answer, and a refusal changes nothing.
pub fn calls_have_one_kind_of_answer()
    ensures { Always (λ g l h. (c : Call) → Answered g h c) }
{}

// A room's settled and waiting lists, from the wire's lists and what is installed.
pub fn rooms_have_a_closed_form()
    ensures { Always (λ g l h. (k : ℕ) → ClosedForm g h k) }
{}

// The numbers that a settle answers are how much changed.
pub fn settle_counts_what_changed()
    ensures { SettlesCount }
{}

// No list outgrows 256.
pub fn lists_stay_bounded()
    ensures { Always (λ g l h. Bounded h) }
{}

// The wire and the books stay sound, and the wire refuses no announcement.
pub fn parts_stay_right()
    ensures { Always (λ g l h. PartsRight g h) }
{}

// One shift worked through is a list of calls with its answers, and leaves a quiet house.
pub fn worked_shift()
    ensures { WorkedShift }
{}
