// The lines of a plan, for its number of rooms.
ghost use Rattle.std.specs.Prelude.{◌≡◌, ◌≤◌, true};
ghost use Rattle.arrayvec.specs.ArrayVec.{array_vec_len};
ghost use Rattle.plan.specs.Plan.{Plan, plan_right, each_once};

use crate::line::PlanLine;
use arrayvec::ArrayVec;

// Which room is the master of which set: a number of rooms, and the lines taken, in order.
#[derive(Drop)]
pub(crate) struct Masters {
    pub(crate) rooms: u8,
    pub(crate) lines: ArrayVec<PlanLine, 32>,
    ghost few: { array_vec_len lines ≤ 32 },
    ghost right: { plan_right (record { rooms = rooms; lines = lines.items }) ≡ true },
    ghost once: { each_once lines.items ≡ true },
}
