// How an answer is said: the power of the root of two, the eighth turns and the steps, or nought and the steps.
ghost use Rattle.std.specs.Prelude.{Some};
ghost use Rattle.archive.specs.Lines.{answer_line};

use crate::answer::Answer;
use parts::scalar::Scalar;
use std::fmt;

impl fmt::Display for Answer {
    ghost output = { λ answer. Some (answer_line answer.scalar answer.steps) };

    fn fmt<W: fmt::Write>(&self, f: &mut fmt::Formatter<W>) -> fmt::Result {
        let steps = self.steps;
        match self.scalar {
            Scalar::Zero => write!(f, "nought {steps}"),
            Scalar::Root(k, turn) => {
                let m = turn.eighths();
                write!(f, "{k} {m} {steps}")
            }
        }
    }
}
