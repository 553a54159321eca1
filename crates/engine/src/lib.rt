// The engine as a C host calls it: the checker alone, the needs alone and the run on words; in `annex`, the annex page; in `bytes`, the
// checker and the run on bytes; in `limits`, the ranges of the registers. Each call has an answer of its own, made of the call's by `From`.
#![tactic(auto)]

pub mod annex;
pub mod bytes;
pub mod limits;

ghost use Rattle.std.specs.Prelude.{◌≡◌};
ghost use Rattle.rules.specs.paper.Engine.{checker, needs};
ghost use Rattle.integers.specs.Words.{words_of};
ghost use Rattle.calls.specs.Runs.{run_call};
ghost use Rattle.engine.specs.Replies.{check_fields, Replies, outcome_fields, run_fields, RunCalled};
ghost use Rattle.engine.specs.NeedsReplies.{needs_fields, NeedsReplied};

use calls::{Estimated, Outcome, Ran, check, needs, run};
use rules::kinds::Passed;
use rules::refusals::Refused;

// What a check answers to a C host: refusal 0 where the image passes, and then the value is the root's code or 8 for a command.
#[repr(C)]
#[derive(Clone, Copy, Debug, PartialEq, Eq, Default)]
pub struct CheckReply {
    pub refusal: u64,
    pub value: u64,
    pub place: u64,
}

impl From<Result<Passed, Refused>> for CheckReply {
    ghost from_gives = { λ answer reply. reply ≡ check_fields answer };

    fn from(answer: Result<Passed, Refused>) -> CheckReply {
        let none = CheckReply::default();
        match answer {
            Ok(Passed::Expression(code)) => CheckReply {
                value: code as u64,
                ..none
            },
            Ok(Passed::Command) => CheckReply { value: 8, ..none },
            Err(refused) => CheckReply {
                refusal: refused.refusal.number(),
                place: refused.place as u64,
                ..none
            },
        }
    }
}

// What the needs come to for a C host: refusal 0 where there are figures; open 1 where a Loop leaves the steps open, which are 0 then.
#[repr(C)]
#[derive(Clone, Copy, Debug, PartialEq, Eq, Default)]
pub struct NeedsReply {
    pub refusal: u64,
    pub place: u64,
    pub control: u64,
    pub values: u64,
    pub cells: u64,
    pub bindings: u64,
    pub steps: u64,
    pub open: u64,
}

impl From<Result<Estimated, Refused>> for NeedsReply {
    ghost from_gives = { λ answer reply. reply ≡ needs_fields answer };

    fn from(answer: Result<Estimated, Refused>) -> NeedsReply {
        let none = NeedsReply::default();
        match answer {
            Ok(estimated) => NeedsReply {
                control: estimated.control,
                values: estimated.values,
                cells: estimated.cells,
                bindings: estimated.bindings,
                steps: estimated.steps.unwrap_or(0),
                open: u64::from(estimated.steps.is_none()),
                ..none
            },
            Err(refused) => NeedsReply {
                refusal: refused.refusal.number(),
                place: refused.place as u64,
                ..none
            },
        }
    }
}

// A run's answer for a C host: refusal 0 where the run ends, and then the outcome is 1 for a number, 2 for a truth, 3 for a cell and 0
// for none. The high marks are 0 for refusals 1 to 22.
#[repr(C)]
#[derive(Clone, Copy, Debug, PartialEq, Eq, Default)]
pub struct RunReply {
    pub refusal: u64,
    pub outcome: u64,
    pub value: u64,
    pub place: u64,
    pub steps: u64,
    pub cells: u64,
    pub bindings: u64,
    pub values: u64,
    pub control: u64,
}

// No step is made, and the marks are 0.
impl From<Result<Outcome, Refused>> for RunReply {
    ghost from_gives = { λ outcome reply. reply ≡ outcome_fields outcome };

    fn from(outcome: Result<Outcome, Refused>) -> RunReply {
        let none = RunReply::default();
        match outcome {
            Ok(Outcome::Number(word)) => RunReply {
                outcome: 1,
                value: word,
                ..none
            },
            Ok(Outcome::Truth(truth)) => RunReply {
                outcome: 2,
                value: u64::from(truth),
                ..none
            },
            Ok(Outcome::Location(cell)) => RunReply {
                outcome: 3,
                value: cell,
                ..none
            },
            Ok(Outcome::Nothing) => none,
            Err(refused) => RunReply {
                refusal: refused.refusal.number(),
                place: refused.place as u64,
                ..none
            },
        }
    }
}

impl From<Ran> for RunReply {
    ghost from_gives = { λ answer reply. reply ≡ run_fields answer };

    fn from(answer: Ran) -> RunReply {
        let marks = answer.marks;
        RunReply {
            steps: answer.steps,
            cells: marks.cells as u64,
            bindings: marks.bindings as u64,
            values: marks.values as u64,
            control: marks.control as u64,
            ..RunReply::from(answer.outcome)
        }
    }
}

// `check` for a C host.
#[unsafe(no_mangle)]
pub extern "C" fn pi_check(image: &[u32], work: &mut [u64]) -> CheckReply
    ensures replies { Replies (checker image.now work.old).answer result }
    ensures work_after { work.new ≡ (checker image.now work.old).work }
{
    CheckReply::from(check(image, work))
}

// `needs` for a C host.
#[unsafe(no_mangle)]
pub extern "C" fn pi_needs(image: &[u32], work: &mut [u64]) -> NeedsReply
    ensures needs_replied { NeedsReplied (needs image.now work.old).answer result }
    ensures work_after { work.new ≡ (needs image.now work.old).work }
{
    NeedsReply::from(needs(image, work))
}

// `run` for a C host.
#[unsafe(no_mangle)]
pub extern "C" fn pi_run(
    image: &[u32],
    registers: &mut [u64],
    budget: u64,
    work: &mut [u64],
) -> RunReply
    ensures { RunCalled words_of (run_call image.now registers.old budget work.old) result registers.new work.new }
{
    RunReply::from(run(image, registers, budget, work))
}
