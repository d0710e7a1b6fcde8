ghost use Rattle.std.specs.Prelude.{◌≡◌, IfOk};
ghost use Rattle.wire.specs.Wire.{new_wire};
ghost use Rattle.wires.specs.AnyPolicies.{any_fresh};
ghost use Rattle.wires.specs.Meaning.{meaning_of};

use crate::any_policy::AnyPolicy;
use crate::kind::WireKind;
use crate::policy_wire::PolicyWire;
use std::alloc::{AllocError, Global};
use wire::Wire;

impl PolicyWire<AnyPolicy> {
    // A new wire of a kind.
    pub fn open_kind(heap: Global, kind: WireKind) -> Result<PolicyWire<AnyPolicy>, AllocError>
        ensures after { IfOk result (λ w. meaning_of w.ledger ≡ new_wire) }
        ensures policy { IfOk result (λ w. w.policy ≡ any_fresh kind) }
    {
        Ok(Self::open(heap)?.with_kind(kind))
    }

    // The same ledger under the policy of a new wire of a kind.
    pub fn with_kind(mut self, kind: WireKind) -> PolicyWire<AnyPolicy>
        ensures ledger { result.ledger ≡ self.ledger }
        ensures policy { result.policy ≡ any_fresh kind }
    {
        self.policy = AnyPolicy::of_kind(kind);
        self
    }
}
