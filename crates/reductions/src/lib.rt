// Reduction as mathematics: the three rules, runs of steps, and the answer to a row. The definitions are in
// specs/, and each function here stands for the theorems that its contract states.
#![tactic(auto)]

ghost use Rattle.reductions.specs.Kept.{ThreeRulesKeep};
ghost use Rattle.reductions.specs.Answers.{AnswersAreRight, AnswersAlike};

// Two spiders at which a diagram may be pivoted.
#[derive(Clone, Copy, Debug, PartialEq, Eq)]
pub struct Pair {
    pub first: usize,
    pub second: usize,
}

// Local complementation, pivoting and the removal of an isolated spider keep the amplitude at every row, leave
// fewer spiders, move the scalar little and keep the open legs.
pub fn three_rules_keep()
    ensures { ThreeRulesKeep }
{}

// Closing the legs at a row and reducing to the end answers the amplitude, in few steps; and diagrams of the
// same amplitude answer alike.
pub fn answers_are_right()
    ensures right { AnswersAreRight }
    ensures alike { AnswersAlike }
{}
