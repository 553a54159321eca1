// Refusals that have no place in the image.
ghost use Rattle.std.specs.Prelude.{◌≡◌};
ghost use Rattle.calls.specs.Answers.{without_place};
ghost use Rattle.calls.specs.Runs.{unstarted_with};

use crate::Ran;
use automaton::meter::no_marks;
use rules::refusals::{Refusal, Refused};

pub(crate) fn nowhere(refusal: Refusal) -> Refused
    ensures { result ≡ without_place refusal }
{
    Refused { refusal, place: 0 }
}

// The answer of a run that is refused before its first step.
pub(crate) fn unstarted(refused: Refused) -> Ran
    ensures { result ≡ unstarted_with refused }
{
    Ran {
        outcome: Err(refused),
        steps: 0,
        marks: no_marks(),
    }
}
