// The run of an image: its tree is run on the automaton over the registers.
ghost use Rattle.std.specs.Prelude.{◌≡◌, ◌≤◌, length};
ghost use Rattle.rules.specs.paper.Limits.{work_words};
ghost use Rattle.rules.specs.paper.States.{Value};
ghost use Rattle.rules.specs.paper.Engine.{Answer};
ghost use Rattle.calls.specs.Runs.{value_outcome, outcome_reply, TreeStands, TreeStandsAs, ExecutesTree, RunsTreeAs, Performed, run_of_image, LeftAs, AnswersAs};

use crate::refused::{nowhere, unstarted};
use crate::{Outcome, Ran};
use automaton::Ending;
use automaton::ends::{take_registers, value_left};
use automaton::start::start;
use loader::load;
use machine::Machine;
use rules::kinds::Passed;
use rules::refusals::{Reason, Refusal, Refused};

// The tree of so many nodes that stands in the work words is run from the registers, which take what it leaves in them.
fn execute(registers: &mut [u64], budget: u64, work: &mut [u64], nodes: usize) -> Ending
    requires work_words_in_bounds { work_words ≤ length work.old }
    requires tree_stands { TreeStands (length registers.old) work.old nodes }
    ensures { ExecutesTree registers.old budget nodes result registers.new work.old work.new }
{
    let first = start(work, registers, nodes);
    let ending = automaton::run(work, first, budget);
    take_registers(work, registers);
    ending
}

// What a run left that ended, by the code of the root.
fn value_outcome(work: &[u64], last: Machine, code: usize) -> Outcome
    requires { (v : Value) × LeftAs work.now last code v }
    ensures { (v : Value) → LeftAs work.now last code v → result ≡ value_outcome v }
{
    let word = value_left(work, last);
    match code {
        0 => Outcome::Number(word),
        1 => Outcome::Truth(word == 1),
        _ => Outcome::Location(word),
    }
}

// The outcome of the run of a tree with this root that ended so, with this last state: a command, and no node, leave nothing.
fn outcome(
    work: &[u64],
    ended: Result<(), Reason>,
    last: Machine,
    root: Passed,
) -> Result<Outcome, Refused>
    requires { (what : Answer) × AnswersAs root work.now last ended what }
    ensures { (what : Answer) → AnswersAs root work.now last ended what → result ≡ outcome_reply what }
{
    if let Err(reason) = ended {
        return Err(nowhere(Refusal::Withheld(reason)));
    }
    match root {
        Passed::Expression(code) => Ok(value_outcome(work, last, code)),
        Passed::Command => Ok(Outcome::Nothing),
    }
}

// The run of the tree of so many nodes that stands in the work words, and has this root.
fn run_tree(registers: &mut [u64], budget: u64, work: &mut [u64], nodes: usize, root: Passed) -> Ran
    requires work_words_in_bounds { work_words ≤ length work.old }
    requires tree_stands_as { TreeStandsAs (length registers.old) root work.old nodes }
    ensures { RunsTreeAs root registers.old budget nodes result registers.new work.old work.new }
{
    let ending = execute(registers, budget, work, nodes);
    Ran {
        outcome: outcome(work, ending.outcome, ending.record.machine, root),
        steps: ending.steps,
        marks: ending.record.marks,
    }
}

// The image, then the count of registers, then the run. The first 8,192 work words are spoilt.
pub(crate) fn run_image(image: &[u32], registers: &mut [u64], budget: u64, work: &mut [u64]) -> Ran
    requires { work_words ≤ length work.old }
    ensures { Performed (run_of_image image.now registers.old budget) result registers.new work.old work.new }
{
    match load(image, work) {
        Err(refused) => unstarted(refused),
        Ok(loaded) => {
            if registers.len() != loaded.registers {
                return unstarted(nowhere(Refusal::Registers));
            }
            run_tree(registers, budget, work, loaded.nodes, loaded.root)
        }
    }
}
