// Three wires: a ledger that keeps everything but the choice, and three policies that choose.
#![tactic(auto)]

pub mod any_policy;
pub mod any_policy_calls;
pub mod any_wire;
pub mod batch_list;
pub mod batch_list_calls;
pub mod directed;
pub mod examples;
pub mod kind;
pub mod ledger;
pub mod ledger_calls;
pub mod ledger_choices;
pub mod left;
pub mod left_calls;
mod limits;
pub mod page;
pub mod page_calls;
pub mod policy;
pub mod policy_wire;
pub mod policy_wire_calls;
pub mod post;
mod room_number;
mod room_number_calls;
pub mod sequenced;
pub mod turn;

pub use any_policy::AnyPolicy;
pub use directed::Directed;
pub use kind::WireKind;
pub use policy_wire::PolicyWire;
pub use sequenced::Sequenced;
pub use turn::Turn;

// The wire that numbers in the order of posting.
pub type SequencedWire = PolicyWire<Sequenced>;

// The wire that goes round the rooms.
pub type TurnWire = PolicyWire<Turn>;

// The wire that takes wishes.
pub type DirectedWire = PolicyWire<Directed>;

// Any of the three wires.
pub type AnyWire = PolicyWire<AnyPolicy>;
