use crate::ledger::Ledger;
use crate::policy::Policy;

// A wire: a ledger that keeps, and a policy that chooses.
#[derive(Drop)]
pub struct PolicyWire<P: Policy> {
    pub(crate) ledger: Ledger,
    pub(crate) policy: P,
}
