// What a room reads of its house.
ghost use Rattle.plan.specs.Plans.{plan_of};
ghost use Rattle.rooms.specs.Views.{Reading};

use plan::SealedPlan;
use std::marker::Model;
use wire::Wire;

// The posted batches, as the wire has them, and their masters, by the plan. A contract sees the plan and the posts.
#[derive(Drop)]
pub(crate) struct Works<'a, W: Wire> {
    pub(crate) plan: &'a SealedPlan,
    pub(crate) wire: &'a W,
}

impl<'a, W: Wire> Model for Works<'a, W> {
    ghost Value = { Reading };

    ghost view = { λ w. record { plan = plan_of w.plan.now; posts = (W.Wire.meaning w.wire.now).posts } };
}
