// The law of plans, as the contract of a function.
ghost use Rattle.plan.specs.Laws.{AnswersFollowLines};

// What a sealed plan answers follows its lines.
#[tactic(auto, using(crate::proofs::Lines::follows))]
pub fn answers_follow_lines()
    ensures law { AnswersFollowLines }
{}
