// How a request ends, where it is not refused.
ghost use Rattle.std.specs.Prelude.{◌≡◌};
ghost use Rattle.decide.specs.Carried.{ends};

use answer::Answer;
use state::handles::Change;

// The answer, and the one handle that changes.
#[derive(Clone, Copy)]
pub struct Outcome {
    pub answer: Answer,
    pub change: Option<Change>,
}

// No handle changes.
pub fn ends(answer: Answer) -> Outcome
    ensures { result ≡ ends answer }
{
    Outcome {
        answer,
        change: None,
    }
}
