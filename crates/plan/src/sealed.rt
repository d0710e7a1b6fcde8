// A plan that takes no more lines.
use crate::masters::Masters;
use std::marker::Model;

// A sealed plan: what it answers rests on the lines taken before it was sealed. Clauses see it as the masters that it gives.
#[derive(Drop)]
pub struct SealedPlan {
    pub(crate) masters: Masters,
}

impl Model for SealedPlan {
    ghost use Rattle.plan.specs.declared.masters.Masters.{Masters};

    ghost Value = { Masters };

    ghost view = { λ p. p.masters };
}
