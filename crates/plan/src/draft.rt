// A plan that is being written.
use crate::masters::Masters;
use std::marker::Model;

// A plan being written. Clauses see it as the masters that it gives so far.
#[derive(Drop)]
pub struct PlanDraft {
    pub(crate) masters: Masters,
}

impl Model for PlanDraft {
    ghost use Rattle.plan.specs.declared.masters.Masters.{Masters};

    ghost Value = { Masters };

    ghost view = { λ d. d.masters };
}
